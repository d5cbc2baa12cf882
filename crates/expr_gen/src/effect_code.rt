//! Expressions whose values are dropped.
ghost use Rattle.std.specs.Prelude.{◌≡◌, ◌++◌, OnOk};
ghost use Rattle.c_semantics.specs.Resolved as tree;
ghost use Rattle.resolved_tree.specs.Nodes.{word, expression_at, place_of, type_of};
ghost use Rattle.tree_code.specs.Code.{kind_of_type, setting_only, effect as effect_of};
ghost use Rattle.expr_gen.specs.Endings.{stepping_variable};
ghost use Rattle.expr_gen.specs.Kinds.{computing};
ghost use Rattle.expr_gen.specs.Scope.{trees_of, look_of, scope_of, Adds};

use crate::constants::int;
use crate::context::Context;
use crate::emit::put;
use crate::ending::Ready;
use crate::kinds::{INT, kind_of};
use crate::operators::compute;
use crate::place::set_only;
use crate::variables::slot;
use crate::walk::{expression, prepare};
use bytecode::Instr;
use c_ints::BinOp;
use resolved_tree::{ExpressionNode, NodeId, Place, ValueType, Word};
use std::alloc::AllocError;

/// Adds the code of an expression whose value is dropped. What it stores isn't kept besides.
pub fn effect(context: &Context, code: &mut Vec<Instr>, e: NodeId, n: u32) -> Result<(), AllocError>
    ensures { let c = context.now in OnOk result (Adds (trees_of c) code.old.items code.new.items
        (effect_of (look_of c) (scope_of c) (expression_at (trees_of c) e) n)) }
{
    let node = context.trees.expression(e);
    match node {
        ExpressionNode::Assign(place, _) => {
            let ready = prepare(context, code, node, n)?;
            set_only(context, code, place, ready.at)
        }
        ExpressionNode::Update(declared, op, place, _) => {
            let ready = prepare(context, code, node, n)?;
            update_only(context, code, (declared, op, place), ready)
        }
        ExpressionNode::Postfix(declared, op, place) => {
            step_only(context, code, (e, declared, op, place), n)
        }
        _ => {
            expression(context, code, e, n)?;
            put(code, &[Instr::Drop])
        }
    }
}

/// A compound assignment, of which the right side is on the stack.
fn update_only(
    context: &Context,
    code: &mut Vec<Instr>,
    step: (ValueType, BinOp, Place),
    ready: Ready,
) -> Result<(), AllocError>
    ensures { let t = trees_of context.now in OnOk result (Adds t code.old.items code.new.items
        (computing step.1 (kind_of_type (type_of t step.0)) ready.second
        ++ setting_only (scope_of context.now) (place_of t step.2) ready.at)) }
{
    let (declared, op, place) = step;
    compute(code, op, kind_of(declared), ready.second)?;
    set_only(context, code, place, ready.at)
}

/// A postfix step, with its tree: that of a variable needs no copy of the old value.
fn step_only(
    context: &Context,
    code: &mut Vec<Instr>,
    step: (NodeId, ValueType, BinOp, Place),
    n: u32,
) -> Result<(), AllocError>
    requires { let t = trees_of context.now in
        expression_at t step.0 ≡ tree.Postfix (type_of t step.1) step.2 (place_of t step.3) }
    ensures { let c = context.now in OnOk result (Adds (trees_of c) code.old.items code.new.items
        (effect_of (look_of c) (scope_of c) (expression_at (trees_of c) step.0) n)) }
{
    match step.3 {
        Place::Local(name) => step_variable(context, code, (step.1, step.2, name)),
        _ => {
            expression(context, code, step.0, n)?;
            put(code, &[Instr::Drop])
        }
    }
}

/// A postfix step of a variable.
fn step_variable(
    context: &Context,
    code: &mut Vec<Instr>,
    step: (ValueType, BinOp, Word),
) -> Result<(), AllocError>
    ensures { let t = trees_of context.now in OnOk result (Adds t code.old.items code.new.items
        (stepping_variable (scope_of context.now) (type_of t step.0) step.1 (word t step.2))) }
{
    let (declared, op, name) = step;
    let number = slot(context, name)?;
    put(code, &[Instr::Load(number), int(1)])?;
    compute(code, op, kind_of(declared), INT)?;
    put(code, &[Instr::Store(number)])
}
