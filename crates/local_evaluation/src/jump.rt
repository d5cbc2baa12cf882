//! Jumps out of the body of a loop.
ghost use Rattle.std.specs.Prelude.{◌≡◌, ◌≤◌, List, IfOk, OnOk};
ghost use Rattle.c_semantics.specs.Values.{Value as SeenValue};
ghost use Rattle.c_semantics.specs.Evaluation.{ways};
ghost use Rattle.resolved_tree.specs.Nodes.{Table};
ghost use Rattle.local_evaluation.specs.Ends.{ended};
ghost use Rattle.local_evaluation.specs.Pieces.{pending};
ghost use Rattle.local_evaluation.specs.Weights.{weight};
ghost use Rattle.local_evaluation.specs.Work.{scopes_of, way, went};

use crate::piece::Piece;
use crate::scopes::close;
use crate::stack::{next, put};
use crate::work::{End, Jump, Local};
use std::alloc::AllocError;

/// Drops what is pending up to the innermost loop, and leaves the scopes between. A `break` drops the loop too.
pub(crate) fn leave(
    pieces: &mut Vec<Piece>,
    scopes: &mut Vec<Local>,
    jump: Jump,
) -> Result<Option<End>, AllocError>
    ensures meaning { IfOk result (λ end. (t : Table) (p : Piece) (values : List SeenValue)
        → way jump (ways (pending t pieces.old.items)) values (scopes_of t scopes.old.items)
        ≡ went t (ended p end) (pending t pieces.new.items) values (scopes_of t scopes.new.items)) }
    ensures falls { OnOk result ((t : Table)
        → weight (pending t pieces.new.items) ≤ weight (pending t pieces.old.items)) }
{
    while let Some(piece) = next(pieces) {
        match piece {
            Piece::Close => {
                if !close(scopes) {
                    return Ok(Some(End::Nothing));
                }
            }
            Piece::AfterBody(_) | Piece::Until(_, _, _) => {
                if let Jump::Continue = jump {
                    put(pieces, &[piece])?;
                }
                return Ok(None);
            }
            _ => {}
        }
    }
    Ok(Some(End::Nothing))
}
