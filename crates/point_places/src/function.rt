//! The places of the points of a function.
ghost use Rattle.std.specs.Prelude.{◌≡◌, ◌++◌, ◌∷◌, [], Some, IfOk};
ghost use Rattle.c_tree.specs.Bare.{bare_function};
ghost use Rattle.c_semantics.specs.Texts.{Definitions};
ghost use Rattle.c_semantics.specs.Resolution.{resolved_body};
ghost use Rattle.c_semantics.specs.Places.{places, statements_places};
ghost use Rattle.resolved_tree.specs.Nodes.{statements_at};
ghost use Rattle.resolved_tree.specs.Trees.{table};

use crate::append::one;
use crate::statement::sequence;
use c_tree::Function;
use resolved_tree::{NodeId, Trees};
use std::alloc::{AllocError, Global};

/// The place of each point of a function, in the order of its points, as the byte of the text at which what makes the
/// point begins. `body` is the tree of its body in the table: where that is the body as the definitions resolve it, these
/// are the places of the function's skeleton, point by point. It fails only when out of memory.
pub fn places_of(
    alloc: Global,
    trees: &Trees,
    body: NodeId,
    function: &Function,
) -> Result<Vec<usize>, AllocError>
    ensures tree { IfOk result (λ ps. ps.items ≡ function.now.name.place
        ∷ statements_places (statements_at (table trees.now) body) function.now.body ++ function.now.end ∷ []) }
    ensures text { (look : Definitions) → statements_at (table trees.now) body ≡ resolved_body look (Some (bare_function function.now))
        → IfOk result (λ ps. ps.items ≡ places look function.now) }
{
    let mut points = Vec::new(alloc);
    one(function.name.place, &mut points)?;
    sequence(trees, body, function.body.as_slice(), &mut points)?;
    one(function.end, &mut points)?;
    Ok(points)
}
