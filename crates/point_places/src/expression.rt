//! The places of the points of an expression.
ghost use Rattle.std.specs.Prelude.{◌≡◌, ◌++◌, ◌∷◌, OnOk};
ghost use Rattle.c_semantics.specs.Places.{without_casts, operand, operands, expression_places, all_places, parts_places, nothing, each_at, place_of as begin_of};
ghost use Rattle.c_semantics.specs.Points.{reads, writes};
ghost use Rattle.resolved_tree.specs.Nodes.{expression_at, expression_of, arguments_at, place_of};
ghost use Rattle.resolved_tree.specs.Trees.{table};

use crate::access::{access, once, once_and_write, read_and_write, twice};
use crate::parts::{nothing, operand};
use c_tree::Expr;
use resolved_tree::{ArgumentsNode, ExpressionNode, NodeId, Place, Trees, later};
use std::alloc::AllocError;

/// The places of the points of an expression, whose tree with places is `e`, are added.
#[cycle(expression)]
pub(crate) fn expression(
    trees: &Trees,
    id: NodeId,
    e: &Expr,
    places: &mut Vec<usize>,
) -> Result<(), AllocError>
    ensures { OnOk result (places.new.items
        ≡ places.old.items ++ expression_places (expression_at (table trees.now) id) (without_casts e.now)) }
{
    node(trees, trees.expression(id), e, places)
}

/// Those of an expression that is made of a node.
#[cycle(expression)]
fn node(
    trees: &Trees,
    node: ExpressionNode,
    e: &Expr,
    places: &mut Vec<usize>,
) -> Result<(), AllocError>
    ensures { OnOk result (places.new.items
        ≡ places.old.items ++ expression_places (expression_of (table trees.now) node) (without_casts e.now)) }
{
    match node {
        ExpressionNode::Constant(_) => Ok(()),
        ExpressionNode::Read(place) => {
            parts(trees, place, e, places)?;
            access(place, e, places)
        }
        ExpressionNode::Unary(_, a) => expression(trees, a, operand(e, 0, e), places),
        ExpressionNode::Convert(_, a) => expression(trees, a, e, places),
        ExpressionNode::Binary(_, a, b) | ExpressionNode::And(a, b) | ExpressionNode::Or(a, b) => {
            both(trees, a, b, e, places)
        }
        ExpressionNode::Choice(c, a, b) => {
            both(trees, c, a, e, places)?;
            expression(trees, b, operand(e, 2, e), places)
        }
        ExpressionNode::Assign(place, value) => {
            target(trees, place, value, e, places)?;
            access(place, e, places)
        }
        ExpressionNode::Update(_, _, place, value) => update(trees, place, value, e, places),
        ExpressionNode::Postfix(_, _, place) => {
            parts(trees, place, operand(e, 0, e), places)?;
            read_and_write(place, e, places)
        }
        ExpressionNode::Call(_, list) => {
            arguments(trees, list, e, places)?;
            twice(e, places)
        }
        ExpressionNode::Print(_, list) => {
            arguments(trees, list, e, places)?;
            once(e, places)
        }
        ExpressionNode::Free(_, a) | ExpressionNode::Join(a) => {
            expression(trees, a, operand(e, 0, e), places)?;
            once(e, places)
        }
        ExpressionNode::Create(place, _, argument) => {
            target(trees, place, argument, e, places)?;
            once_and_write(place, e, places)
        }
        ExpressionNode::JoinInto(thread, place) => join_into(trees, thread, place, e, places),
        ExpressionNode::New(_)
        | ExpressionNode::InitMutex(_)
        | ExpressionNode::Lock(_)
        | ExpressionNode::Unlock(_) => once(e, places),
    }
}

/// Those of the first two operands.
#[cycle(expression)]
fn both(
    trees: &Trees,
    a: NodeId,
    b: NodeId,
    e: &Expr,
    places: &mut Vec<usize>,
) -> Result<(), AllocError>
    ensures { OnOk result (places.new.items ≡ places.old.items
        ++ (expression_places (expression_at (table trees.now) a) (operand 0 (without_casts e.now))
        ++ expression_places (expression_at (table trees.now) b) (operand 1 (without_casts e.now)))) }
{
    expression(trees, a, operand(e, 0, e), places)?;
    expression(trees, b, operand(e, 1, e), places)
}

/// Those of the parts of a place, which is the first operand, and of the second operand.
#[cycle(expression)]
fn target(
    trees: &Trees,
    place: Place,
    value: NodeId,
    e: &Expr,
    places: &mut Vec<usize>,
) -> Result<(), AllocError>
    ensures { OnOk result (places.new.items ≡ places.old.items
        ++ (parts_places (place_of (table trees.now) place) (operand 0 (without_casts e.now))
        ++ expression_places (expression_at (table trees.now) value) (operand 1 (without_casts e.now)))) }
{
    parts(trees, place, operand(e, 0, e), places)?;
    expression(trees, value, operand(e, 1, e), places)
}

/// Those of a compound assignment.
#[cycle(expression)]
fn update(
    trees: &Trees,
    place: Place,
    value: NodeId,
    e: &Expr,
    places: &mut Vec<usize>,
) -> Result<(), AllocError>
    ensures { OnOk result (places.new.items ≡ places.old.items
        ++ (parts_places (place_of (table trees.now) place) (operand 0 (without_casts e.now))
        ++ each_at (without_casts e.now) (reads (place_of (table trees.now) place))
        ++ expression_places (expression_at (table trees.now) value) (operand 1 (without_casts e.now))
        ++ each_at (without_casts e.now) (writes (place_of (table trees.now) place)))) }
{
    parts(trees, place, operand(e, 0, e), places)?;
    access(place, e, places)?;
    expression(trees, value, operand(e, 1, e), places)?;
    access(place, e, places)
}

/// Those of a `thrd_join` with a place for the result.
#[cycle(expression)]
fn join_into(
    trees: &Trees,
    thread: NodeId,
    place: Place,
    e: &Expr,
    places: &mut Vec<usize>,
) -> Result<(), AllocError>
    ensures { OnOk result (places.new.items ≡ places.old.items
        ++ (expression_places (expression_at (table trees.now) thread) (operand 0 (without_casts e.now))
        ++ parts_places (place_of (table trees.now) place) (operand 1 (without_casts e.now))
        ++ begin_of (without_casts e.now) ∷ each_at (without_casts e.now) (writes (place_of (table trees.now) place)))) }
{
    expression(trees, thread, operand(e, 0, e), places)?;
    parts(trees, place, operand(e, 1, e), places)?;
    once_and_write(place, e, places)
}

/// Those of the parts of a place: its index or its handle.
#[cycle(expression)]
fn parts(trees: &Trees, place: Place, e: &Expr, places: &mut Vec<usize>) -> Result<(), AllocError>
    ensures { OnOk result (places.new.items
        ≡ places.old.items ++ parts_places (place_of (table trees.now) place) (without_casts e.now)) }
{
    match place {
        Place::Local(_) | Place::Global(_) => Ok(()),
        Place::Element(_, part) | Place::Field(_, part, _) => {
            expression(trees, part, operand(e, 0, e), places)
        }
    }
}

/// Those of arguments.
#[cycle(expression)]
fn arguments(
    trees: &Trees,
    list: NodeId,
    e: &Expr,
    places: &mut Vec<usize>,
) -> Result<(), AllocError>
    ensures { OnOk result (places.new.items
        ≡ places.old.items ++ all_places (arguments_at (table trees.now) list) (operands (without_casts e.now))) }
{
    let missing = nothing();
    let done = each(trees, list, e, &missing, places);
    drop(missing);
    done
}

/// Those of arguments, with what stands for one that isn't there.
#[cycle(expression)]
fn each(
    trees: &Trees,
    list: NodeId,
    e: &Expr,
    missing: &Expr,
    places: &mut Vec<usize>,
) -> Result<(), AllocError>
    ensures { without_casts missing.now ≡ nothing → OnOk result (places.new.items
        ≡ places.old.items ++ all_places (arguments_at (table trees.now) list) (operands (without_casts e.now))) }
{
    let mut rest = list;
    let mut k = 0;
    while let ArgumentsNode::Then(argument, next) = trees.arguments(rest) {
        expression(trees, argument, operand(e, k, missing), places)?;
        rest = next;
        k = later(k)?;
    }
    Ok(())
}
