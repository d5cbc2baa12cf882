//! The places of the points of the expressions of a statement.
ghost use Rattle.std.specs.Prelude.{◌≡◌, ◌++◌, ◌∷◌, [], OnOk};
ghost use Rattle.c_tree.specs.declared.stmt.Stmt.{out-Stmt};
ghost use Rattle.c_semantics.specs.Places.{places_in, places_if, expression_of, step_of, begins_at};
ghost use Rattle.resolved_tree.specs.Nodes.{expression_at, expression_if};
ghost use Rattle.resolved_tree.specs.Trees.{table};

use crate::append::one;
use crate::expression::expression;
use crate::parts::{evaluated, nothing, step};
use c_tree::Stmt;
use resolved_tree::{NodeId, Trees};
use std::alloc::AllocError;

/// Those of the expression of a statement.
pub(crate) fn evaluate(
    trees: &Trees,
    id: NodeId,
    s: &Stmt,
    places: &mut Vec<usize>,
) -> Result<(), AllocError>
    ensures { OnOk result (places.new.items ≡ places.old.items
        ++ places_in (expression_at (table trees.now) id) (expression_of (out-Stmt s.now).node)) }
{
    let missing = nothing();
    let done = expression(trees, id, evaluated(s, &missing), places);
    drop(missing);
    done
}

/// The same where it may be absent.
pub(crate) fn evaluate_if(
    trees: &Trees,
    id: Option<NodeId>,
    s: &Stmt,
    places: &mut Vec<usize>,
) -> Result<(), AllocError>
    ensures { OnOk result (places.new.items ≡ places.old.items
        ++ places_if (expression_if (table trees.now) id) (expression_of (out-Stmt s.now).node)) }
{
    match id {
        Some(id) => evaluate(trees, id, s, places),
        None => Ok(()),
    }
}

/// Those of the step of a `for`, if it has one.
pub(crate) fn step_if(
    trees: &Trees,
    id: Option<NodeId>,
    s: &Stmt,
    places: &mut Vec<usize>,
) -> Result<(), AllocError>
    ensures { OnOk result (places.new.items ≡ places.old.items
        ++ places_if (expression_if (table trees.now) id) (step_of (out-Stmt s.now).node)) }
{
    match id {
        Some(id) => {
            let missing = nothing();
            let done = expression(trees, id, step(s, &missing), places);
            drop(missing);
            done
        }
        None => Ok(()),
    }
}

/// Those of the expression of a statement, and the point of the statement itself.
pub(crate) fn evaluate_then(
    trees: &Trees,
    id: NodeId,
    s: &Stmt,
    places: &mut Vec<usize>,
) -> Result<(), AllocError>
    ensures { OnOk result (places.new.items ≡ places.old.items
        ++ (places_in (expression_at (table trees.now) id) (expression_of (out-Stmt s.now).node) ++ begins_at s.now ∷ [])) }
{
    evaluate(trees, id, s, places)?;
    one(s.place, places)
}

/// Those of the step of a `for`, if it has one, and the point at which it goes round.
pub(crate) fn step_then(
    trees: &Trees,
    id: Option<NodeId>,
    s: &Stmt,
    places: &mut Vec<usize>,
) -> Result<(), AllocError>
    ensures { OnOk result (places.new.items ≡ places.old.items
        ++ (places_if (expression_if (table trees.now) id) (step_of (out-Stmt s.now).node) ++ begins_at s.now ∷ [])) }
{
    step_if(trees, id, s, places)?;
    one(s.place, places)
}
