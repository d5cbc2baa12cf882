//! The walk over expressions. Each function adds the code of a tree whose first point has a number.
ghost use Rattle.std.specs.Prelude.{◌≡◌, ◌+◌, [], ◌∷◌, ◌++◌, IfOk, OnOk};
ghost use Rattle.c_semantics.specs.Points.{size};
ghost use Rattle.resolved_tree.specs.Nodes.{Table, expression_at, arguments_at};
ghost use Rattle.typed_trees.specs.ExpressionTypes.{type_of};
ghost use Rattle.bytecode.specs.Instructions.{JumpIfZero};
ghost use Rattle.bytecode.specs.Seen.{instruction_of};
ghost use Rattle.tree_code.specs.Code.{kind_of_type, value, values, either, int_code};
ghost use Rattle.expr_gen.specs.Kinds.{int_kind};
ghost use Rattle.expr_gen.specs.Operands.{operand_code, operand_kind};
ghost use Rattle.expr_gen.specs.Walk.{IsReady, skipping as skipping_of, skipped as skipped_of, logical_code};
ghost use Rattle.expr_gen.specs.Scope.{trees_of, look_of, scope_of, Adds};

use crate::constants::int;
use crate::context::Context;
use crate::emit::put;
use crate::ending::{Ready, between, finish, left_kind};
use crate::jump::{Leap, hole, lead};
use crate::kinds::INT;
use crate::operand::{Operand, Operands, after, operands_in};
use bytecode::{Instr, ValueKind};
use resolved_tree::{ArgumentsNode, ExpressionNode, NodeId};
use std::alloc::AllocError;

/// `&&` or `||`.
#[derive(Clone, Copy)]
pub(crate) enum Connective {
    And,
    Or,
}

/// When the right side is left out.
fn skipping(op: Connective) -> Leap
    ensures { result ≡ skipping_of op }
{
    match op {
        Connective::And => Leap::IfZero,
        Connective::Or => Leap::UnlessZero,
    }
}

/// The value where it is.
fn skipped(op: Connective) -> Instr
    ensures { (t : Table) → instruction_of t result ≡ int_code (skipped_of op) }
{
    match op {
        Connective::And => int(0),
        Connective::Or => int(1),
    }
}

/// Adds the code of an expression, and gives the kind of the word that it leaves. Lack of memory is reported, too, where the
/// number of a point or of a variable, or the length of a jump, is 2^32 or more.
#[cycle(expression)]
pub fn expression(
    context: &Context,
    code: &mut Vec<Instr>,
    e: NodeId,
    n: u32,
) -> Result<ValueKind, AllocError>
    ensures code { let c = context.now in let t = trees_of c in OnOk result (Adds t code.old.items code.new.items
        (value (look_of c) (scope_of c) (expression_at t e) n)) }
    ensures kind { let c = context.now in IfOk result (λ kind.
        kind ≡ kind_of_type (type_of (look_of c) (scope_of c) (expression_at (trees_of c) e))) }
{
    let node = context.trees.expression(e);
    match node {
        ExpressionNode::And(a, b) => logical(context, code, Connective::And, (a, b), n),
        ExpressionNode::Or(a, b) => logical(context, code, Connective::Or, (a, b), n),
        ExpressionNode::Choice(c, a, b) => choice(context, code, (c, a, b), n),
        _ => {
            let ready = prepare(context, code, node, n)?;
            finish(context, code, node, ready)?;
            left_kind(context, node, ready)
        }
    }
}

/// The operands of an expression, and what it does between them.
#[cycle(expression)]
pub(crate) fn prepare(
    context: &Context,
    code: &mut Vec<Instr>,
    node: ExpressionNode,
    n: u32,
) -> Result<Ready, AllocError>
    ensures { let c = context.now in
        IfOk result (IsReady (trees_of c) (look_of c) (scope_of c) node n code.old.items code.new.items) }
{
    let trees = context.trees;
    let Operands { first, second } = operands_in(trees, node);
    let left = operand(context, code, first, n)?;
    let middle = after(trees, first, n)?;
    let next = between(context, code, node, middle)?;
    let right = operand(context, code, second, next)?;
    let at = after(trees, second, next)?;
    Ok(Ready {
        first: left,
        second: right,
        at,
    })
}

/// An operand, with the kind of its value; of what has none that of an `int`.
#[cycle(expression)]
fn operand(
    context: &Context,
    code: &mut Vec<Instr>,
    part: Operand,
    n: u32,
) -> Result<ValueKind, AllocError>
    ensures code { let c = context.now in let t = trees_of c in OnOk result (Adds t code.old.items code.new.items
        (operand_code t (look_of c) (scope_of c) part n)) }
    ensures kind { let c = context.now in IfOk result (λ kind.
        kind ≡ operand_kind (trees_of c) (look_of c) (scope_of c) part) }
{
    match part {
        Operand::Nothing => Ok(INT),
        Operand::Value(e) => expression(context, code, e, n),
        Operand::Arguments(es) => {
            arguments(context, code, es, n)?;
            Ok(INT)
        }
    }
}

/// Arguments.
#[cycle(expression)]
fn arguments(context: &Context, code: &mut Vec<Instr>, es: NodeId, n: u32) -> Result<(), AllocError>
    ensures { let c = context.now in let t = trees_of c in OnOk result (Adds t code.old.items code.new.items
        (values (look_of c) (scope_of c) (arguments_at t es) n)) }
{
    match context.trees.arguments(es) {
        ArgumentsNode::None => Ok(()),
        ArgumentsNode::Then(e, rest) => {
            expression(context, code, e, n)?;
            let next = context.trees.behind(n, e)?;
            arguments(context, code, rest, next)
        }
    }
}

/// `&&` or `||`.
#[cycle(expression)]
fn logical(
    context: &Context,
    code: &mut Vec<Instr>,
    op: Connective,
    sides: (NodeId, NodeId),
    n: u32,
) -> Result<ValueKind, AllocError>
    ensures code { let c = context.now in let t = trees_of c in let a = expression_at t sides.0 in
        OnOk result (Adds t code.old.items code.new.items
        (logical_code op (value (look_of c) (scope_of c) a n)
        (value (look_of c) (scope_of c) (expression_at t sides.1) (n + size a)))) }
    ensures kind { IfOk result (λ kind. kind ≡ int_kind) }
{
    expression(context, code, sides.0, n)?;
    let skip = hole(code)?;
    let next = context.trees.behind(n, sides.0)?;
    expression(context, code, sides.1, next)?;
    put(code, &[Instr::IsNotZero, Instr::Jump(1)])?;
    lead(code, skip, skipping(op))?;
    put(code, &[skipped(op)])?;
    Ok(INT)
}

/// `?:`, with its condition and its sides.
#[cycle(expression)]
fn choice(
    context: &Context,
    code: &mut Vec<Instr>,
    parts: (NodeId, NodeId, NodeId),
    n: u32,
) -> Result<ValueKind, AllocError>
    ensures code { let c = context.now in let t = trees_of c in
        let test = expression_at t parts.0 in let a = expression_at t parts.1 in let b = expression_at t parts.2 in
        OnOk result (Adds t code.old.items code.new.items
        (value (look_of c) (scope_of c) test n ++ either JumpIfZero (value (look_of c) (scope_of c) a (n + size test))
        (value (look_of c) (scope_of c) b (n + size test + size a)))) }
    ensures kind { let c = context.now in IfOk result (λ kind.
        kind ≡ kind_of_type (type_of (look_of c) (scope_of c) (expression_at (trees_of c) parts.1))) }
{
    let (test, a, b) = parts;
    expression(context, code, test, n)?;
    let to_second = hole(code)?;
    let first = context.trees.behind(n, test)?;
    let kind = expression(context, code, a, first)?;
    let past = hole(code)?;
    lead(code, to_second, Leap::IfZero)?;
    let second = context.trees.behind(first, a)?;
    expression(context, code, b, second)?;
    lead(code, past, Leap::Always)?;
    Ok(kind)
}
