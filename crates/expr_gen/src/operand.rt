//! What an expression evaluates before it does something itself.
ghost use Rattle.std.specs.Prelude.{◌≡◌, ◌+◌, IfOk};
ghost use Rattle.resolved_tree.specs.Trees.{table};
ghost use Rattle.expr_gen.specs.Operands.{operands_of, one_operand, two_operands, part_of, unless_constant, operand_size};
ghost use Rattle.resolved_tree.specs.Nodes.{expression_at};
ghost use Rattle.tree_code.specs.Code.{constant_of};

use c_ints::Int;
use resolved_tree::{ExpressionNode, NodeId, Place, Trees};
use std::alloc::AllocError;

/// A part of an expression that is evaluated.
#[derive(Clone, Copy)]
pub(crate) enum Operand {
    Nothing,
    Value(NodeId),
    Arguments(NodeId),
}

/// The parts of an expression that are always evaluated, in order.
#[derive(Clone, Copy)]
pub(crate) struct Operands {
    pub first: Operand,
    pub second: Operand,
}

/// The operands of an expression; the parts of `&&`, `||` and `?:` are none.
pub(crate) fn operands_in(trees: &Trees, node: ExpressionNode) -> Operands
    ensures { result ≡ operands_of (table trees.now) node }
{
    match node {
        ExpressionNode::Unary(_, a) | ExpressionNode::Free(_, a) | ExpressionNode::Join(a) => {
            one(Operand::Value(a))
        }
        ExpressionNode::Binary(_, a, b) => two(Operand::Value(a), Operand::Value(b)),
        ExpressionNode::Convert(_, a) => one(converted(trees, a)),
        ExpressionNode::Read(place) | ExpressionNode::Postfix(_, _, place) => one(part(place)),
        ExpressionNode::Assign(place, e)
        | ExpressionNode::Update(_, _, place, e)
        | ExpressionNode::Create(place, _, e) => two(part(place), Operand::Value(e)),
        ExpressionNode::JoinInto(e, place) => two(Operand::Value(e), part(place)),
        ExpressionNode::Call(_, arguments) | ExpressionNode::Print(_, arguments) => {
            one(Operand::Arguments(arguments))
        }
        ExpressionNode::Constant(_)
        | ExpressionNode::And(_, _)
        | ExpressionNode::Or(_, _)
        | ExpressionNode::Choice(_, _, _)
        | ExpressionNode::New(_)
        | ExpressionNode::InitMutex(_)
        | ExpressionNode::Lock(_)
        | ExpressionNode::Unlock(_) => one(Operand::Nothing),
    }
}

/// One operand.
fn one(first: Operand) -> Operands
    ensures { result ≡ one_operand first }
{
    two(first, Operand::Nothing)
}

/// Two operands.
fn two(first: Operand, second: Operand) -> Operands
    ensures { result ≡ two_operands first second }
{
    Operands { first, second }
}

/// The part of a place: its index or its handle.
fn part(place: Place) -> Operand
    ensures { result ≡ part_of place }
{
    match place {
        Place::Local(_) | Place::Global(_) => Operand::Nothing,
        Place::Element(_, part) | Place::Field(_, part, _) => Operand::Value(part),
    }
}

/// The number of a constant.
pub(crate) fn constant_in(trees: &Trees, e: NodeId) -> Option<Int>
    ensures { result ≡ constant_of (expression_at (table trees.now) e) }
{
    match trees.expression(e) {
        ExpressionNode::Constant(n) => Some(n),
        _ => None,
    }
}

/// What is converted; a constant isn't evaluated before.
fn converted(trees: &Trees, a: NodeId) -> Operand
    ensures { let t = table trees.now in result ≡ unless_constant (constant_of (expression_at t a)) a }
{
    match constant_in(trees, a) {
        Some(_) => Operand::Nothing,
        None => Operand::Value(a),
    }
}

/// The number of the first point after an operand.
pub(crate) fn after(trees: &Trees, operand: Operand, n: u32) -> Result<u32, AllocError>
    ensures { IfOk result (λ m. m ≡ n + operand_size (table trees.now) operand) }
{
    match operand {
        Operand::Nothing => Ok(n),
        Operand::Value(e) => trees.behind(n, e),
        Operand::Arguments(arguments) => trees.after_arguments(n, arguments),
    }
}
