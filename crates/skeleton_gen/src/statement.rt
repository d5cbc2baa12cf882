//! The points of statements, from right to left. Each function adds a part of a tree to a draft: it takes where control
//! goes after the part, and at a jump out of it, and gives where control goes at its beginning.
ghost use Rattle.std.specs.Prelude.{◌≡◌, ℕ, List, IfOk, Some};
ghost use Rattle.c_semantics.specs.Resolved as resolved;
ghost use Rattle.c_semantics.specs.Points.{of_statement, of_statements, evaluated, evaluated_if};
ghost use Rattle.c_semantics.specs.Skeletons.{Targets, goes, guarded};
ghost use Rattle.c_semantics.specs.Skeletons as flow;
ghost use Rattle.resolved_tree.specs.Nodes.{Table, expression_at, statement_at, statements_at};
ghost use Rattle.resolved_tree.specs.Nodes as nodes;
ghost use Rattle.resolved_tree.specs.Trees.{table};
ghost use Rattle.skeleton_gen.specs.Adding.{AddsFlow, targets};
ghost use Rattle.skeleton_gen.specs.Drawn.{drawn};
ghost use Rattle.skeleton_gen.specs.Loops.{loop_points, loop_flow};
ghost use Rattle.skeleton_gen.specs.Rows.{in_a_row};

use crate::draft::Draft;
use crate::expression::{expression, expression_if};
use crate::spot::SpotKind;
use crate::union::{copy, union};
use resolved_tree::{NodeId, StatementNode, StatementsNode, Trees, sum};
use skeletons::CheckInKind;
use std::alloc::{AllocError, Global};

/// Where control goes at a `break`, and at a `continue`.
#[derive(Drop)]
pub(crate) struct Jumps {
    pub broken: Vec<u32>,
    pub continued: Vec<u32>,
}

/// A loop that begins with its test.
#[derive(Clone, Copy)]
struct Loop {
    test: Option<NodeId>,
    body: NodeId,
    step: Option<NodeId>,
}

/// Statements in order.
#[cycle(statement)]
pub(crate) fn statements(
    trees: &Trees,
    draft: &mut Draft,
    depth: u32,
    ss: NodeId,
    on: Vec<u32>,
    jumps: &Jumps,
) -> Result<Vec<u32>, AllocError>
    ensures { let t = table trees.now in let tree = statements_at t ss in
        let k = targets on.items jumps.now.broken.items jumps.now.continued.items in
        IfOk result (λ first. AddsFlow (of_statements depth tree) (λ n. flow.statements tree n k)
        (drawn t draft.old) (drawn t draft.new) first.items) }
{
    let list = listed(*on.allocator(), trees, ss)?;
    let mut to = on;
    let mut left = list.len();
    while left > 0 {
        left -= 1;
        to = statement(trees, draft, depth, list[left], to, jumps)?;
    }
    Ok(to)
}

/// Statements as a list, so that none of them waits for those after it.
fn listed(alloc: Global, trees: &Trees, ss: NodeId) -> Result<Vec<NodeId>, AllocError>
    ensures { let t = table trees.now in IfOk result (λ list. in_a_row t list.items ≡ statements_at t ss) }
{
    let mut list = Vec::new(alloc);
    let mut rest = ss;
    while let StatementsNode::Then(s, next) = trees.statements(rest) {
        list.push(s)?;
        rest = next;
    }
    Ok(list)
}

/// A statement.
#[cycle(statement)]
fn statement(
    trees: &Trees,
    draft: &mut Draft,
    depth: u32,
    s: NodeId,
    on: Vec<u32>,
    jumps: &Jumps,
) -> Result<Vec<u32>, AllocError>
    ensures { let t = table trees.now in let tree = statement_at t s in
        let k = targets on.items jumps.now.broken.items jumps.now.continued.items in
        IfOk result (λ first. AddsFlow (of_statement depth tree) (λ n. flow.statement tree n k)
        (drawn t draft.old) (drawn t draft.new) first.items) }
{
    match trees.statement(s) {
        StatementNode::Empty => Ok(on),
        StatementNode::Break => copy(&jumps.broken),
        StatementNode::Continue => copy(&jumps.continued),
        StatementNode::Evaluate(e) => expression(trees, draft, depth, e, on),
        StatementNode::Declare(_, _, e) => expression_if(trees, draft, depth, e, on),
        StatementNode::Return(e) => returned(trees, draft, depth, e, on),
        StatementNode::UpdatePoint => update_point(draft, depth, on),
        StatementNode::Block(ss) => statements(trees, draft, depth, ss, on, jumps),
        StatementNode::Transaction(ss) => transaction(trees, draft, depth, ss, on, jumps),
        StatementNode::If(c, a) => conditional(trees, draft, depth, c, a, on, jumps),
        StatementNode::IfElse(c, a, b) => alternative(trees, draft, depth, c, a, b, on, jumps),
        StatementNode::While(c, body) => {
            let l = Loop {
                test: Some(c),
                body,
                step: None,
            };
            turns(trees, draft, depth, l, on)
        }
        StatementNode::DoWhile(body, c) => do_turns(trees, draft, depth, body, c, on),
        StatementNode::For(first, test, step, body) => {
            let on = turns(trees, draft, depth, Loop { test, body, step }, on)?;
            statements(trees, draft, depth, first, on, jumps)
        }
    }
}

/// A statement that is left out where a condition fails.
#[cycle(statement)]
fn conditional(
    trees: &Trees,
    draft: &mut Draft,
    depth: u32,
    c: NodeId,
    a: NodeId,
    on: Vec<u32>,
    jumps: &Jumps,
) -> Result<Vec<u32>, AllocError>
    ensures { let t = table trees.now in
        let tree = resolved.If (expression_at t c) (statement_at t a) in
        let k = targets on.items jumps.now.broken.items jumps.now.continued.items in
        IfOk result (λ first. AddsFlow (of_statement depth tree) (λ n. flow.statement tree n k)
        (drawn t draft.old) (drawn t draft.new) first.items) }
{
    let past = copy(&on)?;
    let inside = statement(trees, draft, depth, a, on, jumps)?;
    tested(trees, draft, depth, c, inside, &past)
}

/// One of two statements.
#[cycle(statement)]
fn alternative(
    trees: &Trees,
    draft: &mut Draft,
    depth: u32,
    c: NodeId,
    a: NodeId,
    b: NodeId,
    on: Vec<u32>,
    jumps: &Jumps,
) -> Result<Vec<u32>, AllocError>
    ensures { let t = table trees.now in
        let tree = resolved.IfElse (expression_at t c) (statement_at t a) (statement_at t b) in
        let k = targets on.items jumps.now.broken.items jumps.now.continued.items in
        IfOk result (λ first. AddsFlow (of_statement depth tree) (λ n. flow.statement tree n k)
        (drawn t draft.old) (drawn t draft.new) first.items) }
{
    let again = copy(&on)?;
    let second = statement(trees, draft, depth, b, again, jumps)?;
    let inside = statement(trees, draft, depth, a, on, jumps)?;
    tested(trees, draft, depth, c, inside, &second)
}

/// A transaction.
#[cycle(statement)]
fn transaction(
    trees: &Trees,
    draft: &mut Draft,
    depth: u32,
    ss: NodeId,
    on: Vec<u32>,
    jumps: &Jumps,
) -> Result<Vec<u32>, AllocError>
    ensures { let t = table trees.now in
        let tree = resolved.Transaction (statements_at t ss) in
        let k = targets on.items jumps.now.broken.items jumps.now.continued.items in
        IfOk result (λ first. AddsFlow (of_statement depth tree) (λ n. flow.statement tree n k)
        (drawn t draft.old) (drawn t draft.new) first.items) }
{
    let inner = sum(depth, 1)?;
    let to = draft.point(SpotKind::CheckIn(CheckInKind::End), depth, on)?;
    let to = draft.point(SpotKind::End, inner, to)?;
    let to = statements(trees, draft, inner, ss, to, jumps)?;
    let to = draft.point(SpotKind::CheckIn(CheckInKind::Begin), inner, to)?;
    draft.point(SpotKind::Begin, depth, to)
}

/// A loop that begins with its test. Its back edge leads to its beginning, which is known at the end.
#[cycle(statement)]
fn turns(
    trees: &Trees,
    draft: &mut Draft,
    depth: u32,
    l: Loop,
    on: Vec<u32>,
) -> Result<Vec<u32>, AllocError>
    ensures { let t = table trees.now in
        let test = nodes.expression_if t l.test in
        let step = nodes.expression_if t l.step in
        let body = statement_at t l.body in
        IfOk result (λ first. AddsFlow (loop_points depth test step body) (λ n. loop_flow test step body n on.items)
        (drawn t draft.old) (drawn t draft.new) first.items) }
{
    let back = draft.next.len();
    let edge = draft.point(SpotKind::Back, depth, Vec::new(*on.allocator()))?;
    let after = expression_if(trees, draft, depth, l.step, edge)?;
    let again = copy(&after)?;
    let jumps = Jumps {
        broken: on,
        continued: after,
    };
    let inside = statement(trees, draft, depth, l.body, again, &jumps)?;
    let first = guarded(trees, draft, depth, l.test, inside, &jumps.broken)?;
    draft.lead(back, copy(&first)?);
    Ok(first)
}

/// A `do` loop.
#[cycle(statement)]
fn do_turns(
    trees: &Trees,
    draft: &mut Draft,
    depth: u32,
    body: NodeId,
    c: NodeId,
    on: Vec<u32>,
) -> Result<Vec<u32>, AllocError>
    ensures { let t = table trees.now in
        let tree = resolved.DoWhile (statement_at t body) (expression_at t c) in
        IfOk result (λ first. (broken continued : List ℕ)
        → AddsFlow (of_statement depth tree) (λ n. flow.statement tree n (targets on.items broken continued))
        (drawn t draft.old) (drawn t draft.new) first.items) }
{
    let back = draft.next.len();
    let edge = draft.point(SpotKind::Back, depth, Vec::new(*on.allocator()))?;
    let to = union(edge.as_slice(), copy(&on)?)?;
    let test = expression(trees, draft, depth, c, to)?;
    let again = copy(&test)?;
    let jumps = Jumps {
        broken: on,
        continued: test,
    };
    let first = statement(trees, draft, depth, body, again, &jumps)?;
    draft.lead(back, copy(&first)?);
    Ok(first)
}

/// A test before a part, where there is one: where it fails, control goes past the part.
fn guarded(
    trees: &Trees,
    draft: &mut Draft,
    depth: u32,
    test: Option<NodeId>,
    inside: Vec<u32>,
    past: &Vec<u32>,
) -> Result<Vec<u32>, AllocError>
    ensures { let t = table trees.now in let test = nodes.expression_if t test in
        IfOk result (λ first. AddsFlow (evaluated_if depth test)
        (λ n. guarded test n (goes inside.items) past.now.items)
        (drawn t draft.old) (drawn t draft.new) first.items) }
{
    match test {
        None => Ok(inside),
        Some(c) => tested(trees, draft, depth, c, inside, past),
    }
}

/// A test before a part.
fn tested(
    trees: &Trees,
    draft: &mut Draft,
    depth: u32,
    c: NodeId,
    inside: Vec<u32>,
    past: &Vec<u32>,
) -> Result<Vec<u32>, AllocError>
    ensures { let t = table trees.now in let test = expression_at t c in
        IfOk result (λ first. AddsFlow (evaluated depth test)
        (λ n. guarded (Some test) n (goes inside.items) past.now.items)
        (drawn t draft.old) (drawn t draft.new) first.items) }
{
    let to = union(inside.as_slice(), copy(past)?)?;
    expression(trees, draft, depth, c, to)
}

/// A return, after which control goes nowhere in the function.
fn returned(
    trees: &Trees,
    draft: &mut Draft,
    depth: u32,
    e: NodeId,
    on: Vec<u32>,
) -> Result<Vec<u32>, AllocError>
    ensures { let t = table trees.now in let tree = resolved.Return (expression_at t e) in
        IfOk result (λ first. (k : Targets)
        → AddsFlow (of_statement depth tree) (λ n. flow.statement tree n k)
        (drawn t draft.old) (drawn t draft.new) first.items) }
{
    let to = draft.point(SpotKind::Return, depth, Vec::new(*on.allocator()))?;
    expression(trees, draft, depth, e, to)
}

/// An update point with its check-in.
fn update_point(draft: &mut Draft, depth: u32, on: Vec<u32>) -> Result<Vec<u32>, AllocError>
    ensures { IfOk result (λ first. (t : Table) (broken continued : List ℕ)
        → AddsFlow (of_statement depth resolved.UpdatePoint)
        (λ n. flow.statement resolved.UpdatePoint n (targets on.items broken continued))
        (drawn t draft.old) (drawn t draft.new) first.items) }
{
    let to = draft.point(SpotKind::CheckIn(CheckInKind::Update), depth, on)?;
    draft.point(SpotKind::Update, depth, to)
}
