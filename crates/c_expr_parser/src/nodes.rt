ghost use Rattle.std.specs.Prelude.{◌≡◌, ◌∷◌, ◌++◌, [], IfOk, OnOk};
ghost use Rattle.c_expr_parser.specs.Operators.{joined};
ghost use Rattle.c_expr_parser.specs.Plans.{join_node, target_value, unary, other, assigned as assigned_to};

use crate::operand::Operand;
use crate::operators::Joint;
use c_ints::{BinOp, UnOp};
use c_tree::{CType, Expr, ExprNode, Name, StepOp};
use dsu_io::Boxed;
use std::alloc::{AllocError, Global};

/// A unary expression of a node that begins at a place.
pub fn unary_of(alloc: Global, start: usize, node: ExprNode<Expr>) -> Result<Operand, AllocError>
    ensures { IfOk result (λ x. x ≡ unary start node) }
{
    Ok(Operand {
        expr: Boxed::of(alloc, Expr { place: start, node })?,
        start,
        is_unary: true,
    })
}

/// Another operand of a node that begins at a place.
pub fn other_of(alloc: Global, start: usize, node: ExprNode<Expr>) -> Result<Operand, AllocError>
    ensures { IfOk result (λ x. x ≡ other start node) }
{
    Ok(Operand {
        expr: Boxed::of(alloc, Expr { place: start, node })?,
        start,
        is_unary: false,
    })
}

/// Adds an argument to a list.
pub fn push(list: &mut Vec<Expr>, argument: Operand) -> Result<(), AllocError>
    ensures { OnOk result (list.new.items ≡ list.old.items ++ argument.expr ∷ []) }
{
    list.push(argument.expr.into_inner())?;
    Ok(())
}

/// Two operands with what joins them.
pub fn join(alloc: Global, joint: Joint, a: Operand, b: Operand) -> Result<Operand, AllocError>
    ensures { IfOk result (λ x. x ≡ other a.start (joined joint a.expr b.expr)) }
{
    let start = a.start;
    match joint {
        Joint::Operation(op) => other_of(alloc, start, ExprNode::Binary(op, a.expr, b.expr)),
        Joint::Both => other_of(alloc, start, ExprNode::And(a.expr, b.expr)),
        Joint::Either => other_of(alloc, start, ExprNode::Or(a.expr, b.expr)),
    }
}

/// A place with the value that is assigned to it, by a compound operator or by none.
pub fn assign(
    alloc: Global,
    op: Option<BinOp>,
    place: Operand,
    value: Operand,
) -> Result<Operand, AllocError>
    ensures { IfOk result (λ x. x ≡ other place.start (assigned_to op place.expr value.expr)) }
{
    let start = place.start;
    match op {
        Some(op) => other_of(alloc, start, ExprNode::Update(op, place.expr, value.expr)),
        None => other_of(alloc, start, ExprNode::Assign(place.expr, value.expr)),
    }
}

/// A test with the two parts that it chooses from.
pub fn choose(
    alloc: Global,
    test: Operand,
    first: Operand,
    second: Operand,
) -> Result<Operand, AllocError>
    ensures { IfOk result (λ x. x ≡ other test.start (ExprNode.Choice test.expr first.expr second.expr)) }
{
    let node = ExprNode::Choice(test.expr, first.expr, second.expr);
    other_of(alloc, test.start, node)
}

/// An operand after its operator.
pub fn prefix(alloc: Global, op: UnOp, start: usize, a: Operand) -> Result<Operand, AllocError>
    ensures { IfOk result (λ x. x ≡ unary start (ExprNode.Unary op a.expr)) }
{
    unary_of(alloc, start, ExprNode::Unary(op, a.expr))
}

/// An operand that steps, before or after its operator.
pub fn step(alloc: Global, op: StepOp, start: usize, a: Operand) -> Result<Operand, AllocError>
    ensures { IfOk result (λ x. x ≡ unary start (ExprNode.Step op a.expr)) }
{
    unary_of(alloc, start, ExprNode::Step(op, a.expr))
}

/// An operand that is converted.
pub fn convert(alloc: Global, to: CType, start: usize, a: Operand) -> Result<Operand, AllocError>
    ensures { IfOk result (λ x. x ≡ other start (ExprNode.Cast to a.expr)) }
{
    other_of(alloc, start, ExprNode::Cast(to, a.expr))
}

/// A field after an arrow.
pub fn arrow(alloc: Global, a: Operand, field: Name) -> Result<Operand, AllocError>
    ensures { IfOk result (λ x. x ≡ unary a.start (ExprNode.Arrow a.expr field)) }
{
    let start = a.start;
    unary_of(alloc, start, ExprNode::Arrow(a.expr, field))
}

/// A field after a dot.
pub fn dot(alloc: Global, a: Operand, field: Name) -> Result<Operand, AllocError>
    ensures { IfOk result (λ x. x ≡ unary a.start (ExprNode.Dot a.expr field)) }
{
    let start = a.start;
    unary_of(alloc, start, ExprNode::Dot(a.expr, field))
}

/// What a join of a thread is, with the place to which its result goes or none.
pub fn join_thread(
    alloc: Global,
    start: usize,
    thread: Operand,
    target: Option<Operand>,
) -> Result<Operand, AllocError>
    ensures { IfOk result (λ x. x ≡ unary start (join_node thread.expr (target_value target))) }
{
    match target {
        None => unary_of(alloc, start, ExprNode::Join(thread.expr)),
        Some(place) => unary_of(alloc, start, ExprNode::JoinInto(thread.expr, place.expr)),
    }
}
