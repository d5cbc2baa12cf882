//! The points of expressions, from right to left. Each function adds a part of a tree to a draft: it takes where control
//! goes after the part, and gives where control goes at its beginning.
ghost use Rattle.std.specs.Prelude.{IfOk};
ghost use Rattle.c_semantics.specs.Points.{of_expression, of_expressions, evaluated_if};
ghost use Rattle.c_semantics.specs.Skeletons as flow;
ghost use Rattle.resolved_tree.specs.Nodes.{expression_at, arguments_at};
ghost use Rattle.resolved_tree.specs.Nodes as nodes;
ghost use Rattle.resolved_tree.specs.Trees.{table};
ghost use Rattle.skeleton_gen.specs.Adding.{AddsPart, AddsFlow};
ghost use Rattle.skeleton_gen.specs.Drawn.{drawn};
ghost use Rattle.skeleton_gen.specs.Steps.{step_kinds, step_part};

use crate::draft::Draft;
use crate::step::{Step, Steps, in_order};
use crate::union::{copy, union};
use resolved_tree::{ArgumentsNode, NodeId, Trees};
use std::alloc::AllocError;

/// An expression.
#[cycle(expression)]
pub(crate) fn expression(
    trees: &Trees,
    draft: &mut Draft,
    depth: u32,
    e: NodeId,
    to: Vec<u32>,
) -> Result<Vec<u32>, AllocError>
    ensures { let t = table trees.now in let tree = expression_at t e in
        IfOk result (λ first. AddsPart depth (of_expression tree) (flow.expression tree) to.items
        (drawn t draft.old) (drawn t draft.new) first.items) }
{
    let Steps {
        first,
        second,
        third,
        fourth,
    } = in_order(trees.expression(e));
    let to = add_step(trees, draft, depth, fourth, to)?;
    let to = add_step(trees, draft, depth, third, to)?;
    let to = add_step(trees, draft, depth, second, to)?;
    add_step(trees, draft, depth, first, to)
}

/// A step of an expression.
#[cycle(expression)]
fn add_step(
    trees: &Trees,
    draft: &mut Draft,
    depth: u32,
    step: Step,
    to: Vec<u32>,
) -> Result<Vec<u32>, AllocError>
    ensures { let t = table trees.now in
        IfOk result (λ first. AddsPart depth (step_kinds t step) (step_part t step) to.items
        (drawn t draft.old) (drawn t draft.new) first.items) }
{
    match step {
        Step::Nothing => Ok(to),
        Step::Evaluate(e) => expression(trees, draft, depth, e, to),
        Step::Arguments(es) => arguments(trees, draft, depth, es, to),
        Step::At(kind) => draft.point(kind, depth, to),
        Step::Maybe(b) => maybe(trees, draft, depth, b, to),
        Step::MaybeNot(b) => maybe_not(trees, draft, depth, b, to),
        Step::Either(a, b) => either(trees, draft, depth, a, b, to),
    }
}

/// Arguments.
#[cycle(expression)]
fn arguments(
    trees: &Trees,
    draft: &mut Draft,
    depth: u32,
    es: NodeId,
    to: Vec<u32>,
) -> Result<Vec<u32>, AllocError>
    ensures { let t = table trees.now in let tree = arguments_at t es in
        IfOk result (λ first. AddsPart depth (of_expressions tree) (flow.expressions tree) to.items
        (drawn t draft.old) (drawn t draft.new) first.items) }
{
    match trees.arguments(es) {
        ArgumentsNode::None => Ok(to),
        ArgumentsNode::Then(e, rest) => {
            let to = arguments(trees, draft, depth, rest, to)?;
            expression(trees, draft, depth, e, to)
        }
    }
}

/// The right side of `&&`, or control goes past it.
#[cycle(expression)]
fn maybe(
    trees: &Trees,
    draft: &mut Draft,
    depth: u32,
    b: NodeId,
    to: Vec<u32>,
) -> Result<Vec<u32>, AllocError>
    ensures { let t = table trees.now in
        IfOk result (λ first. AddsPart depth (step_kinds t (Step.Maybe b)) (step_part t (Step.Maybe b)) to.items
        (drawn t draft.old) (drawn t draft.new) first.items) }
{
    let past = copy(&to)?;
    let taken = expression(trees, draft, depth, b, to)?;
    union(taken.as_slice(), past)
}

/// The right side of `||`, or control goes past it.
#[cycle(expression)]
fn maybe_not(
    trees: &Trees,
    draft: &mut Draft,
    depth: u32,
    b: NodeId,
    to: Vec<u32>,
) -> Result<Vec<u32>, AllocError>
    ensures { let t = table trees.now in
        IfOk result (λ first. AddsPart depth (step_kinds t (Step.MaybeNot b)) (step_part t (Step.MaybeNot b)) to.items
        (drawn t draft.old) (drawn t draft.new) first.items) }
{
    let past = copy(&to)?;
    let taken = expression(trees, draft, depth, b, to)?;
    union(past.as_slice(), taken)
}

/// One of two expressions.
#[cycle(expression)]
fn either(
    trees: &Trees,
    draft: &mut Draft,
    depth: u32,
    a: NodeId,
    b: NodeId,
    to: Vec<u32>,
) -> Result<Vec<u32>, AllocError>
    ensures { let t = table trees.now in
        IfOk result (λ first. AddsPart depth (step_kinds t (Step.Either a b)) (step_part t (Step.Either a b)) to.items
        (drawn t draft.old) (drawn t draft.new) first.items) }
{
    let again = copy(&to)?;
    let right = expression(trees, draft, depth, b, to)?;
    let left = expression(trees, draft, depth, a, again)?;
    union(left.as_slice(), right)
}

/// An expression that may be absent.
pub(crate) fn expression_if(
    trees: &Trees,
    draft: &mut Draft,
    depth: u32,
    e: Option<NodeId>,
    to: Vec<u32>,
) -> Result<Vec<u32>, AllocError>
    ensures { let t = table trees.now in let tree = nodes.expression_if t e in
        IfOk result (λ first. AddsFlow (evaluated_if depth tree) (λ n. flow.expression_if tree n to.items)
        (drawn t draft.old) (drawn t draft.new) first.items) }
{
    match e {
        None => Ok(to),
        Some(e) => expression(trees, draft, depth, e, to),
    }
}
