//! Local evaluation: a thread's private work up to its next stop.
ghost use Rattle.std.specs.Prelude.{◌≡◌, Some, IfOk};
ghost use Rattle.c_semantics.specs.Evaluation.{local};
ghost use Rattle.local_evaluation.specs.Pieces.{pending};
ghost use Rattle.resolved_tree.specs.Trees.{table};
ghost use Rattle.local_evaluation.specs.Work.{newest, scopes_of, went};

use crate::stack::next;
use crate::step::step;
use crate::work::{Halt, Work};
use resolved_tree::Trees;
use std::alloc::AllocError;

/// Evaluates what is pending up to the next stop. At a stop, what comes after it is pending, and the newest values are
/// what it takes. After lack of memory the work is cut off in the middle and can't be taken up again.
pub fn evaluate(trees: &Trees, work: &mut Work) -> Result<Halt, AllocError>
    ensures { let t = table trees.now in IfOk result (λ halt. local (pending t work.old.pieces.items) (newest work.old.values.items) (scopes_of t work.old.scopes.items)
        ≡ went t (Some halt) (pending t work.new.pieces.items) (newest work.new.values.items) (scopes_of t work.new.scopes.items)) }
{
    while let Some(piece) = next(&mut work.pieces) {
        if let Some(end) = step(trees, work, piece)? {
            return Ok(end.halt(piece));
        }
    }
    Ok(Halt::Nothing)
}
