//! The walk over statements, from right to left. Each function puts the code of a tree whose first point has a number in
//! front of a tail; the variables in scope are afterwards as they were.
ghost use Rattle.std.specs.Prelude.{◌≡◌, ◌+◌, ◌-◌, suc, [], ◌∷◌, ◌++◌, length, IfOk, OnOk};
ghost use Rattle.c_semantics.specs.Points.{size};
ghost use Rattle.c_semantics.specs.Resolved as tree;
ghost use Rattle.c_semantics.specs.Stops as stop;
ghost use Rattle.resolved_tree.specs.Nodes.{Table, expression_at, expression_if, statement_at, statements_at, type_of, word};
ghost use Rattle.resolved_tree.specs.Trees.{table};
ghost use Rattle.local_evaluation.specs.Pieces.{stop_of};
ghost use Rattle.skeletons.specs.Meaning.{check_in_of};
ghost use Rattle.typed_trees.specs.StatementTypes.{with_variable, declares, declare_all};
ghost use Rattle.typed_trees.specs.ValueTypes.{Environment};
ghost use Rattle.bytecode.specs.Instructions.{CheckIn, Halt, Jump};
ghost use Rattle.tree_code.specs.Code.{initial as initial_of, value as value_of};
ghost use Rattle.bytecode_gen.specs.Loops.{guard_code, turns_code, do_code};
ghost use Rattle.bytecode_gen.specs.Tails.{Precedes, Emits, Walks, InScope, AreInside, in_a_row, statement_code, statements_code, with_variable_if, trees_of, look_of};

use crate::part::{Jumps, Source, condition, dropped, dropped_if, initial, value};
use crate::tail::{count, distance, lead_back, precede};
use bytecode::Instr;
use expr_gen::Variable;
use local_evaluation::Stop;
use resolved_tree::{NodeId, StatementNode, StatementsNode, Trees, ValueType, Word, sum};
use skeletons::CheckInKind;
use std::alloc::AllocError;

/// A `while` or `for` loop after its first part, with the number of its first point.
#[derive(Clone, Copy)]
struct Loop {
    test: Option<NodeId>,
    step: Option<NodeId>,
    body: NodeId,
    first: u32,
}

/// Statements in order.
#[cycle(statement)]
pub(crate) fn statements(
    source: &Source,
    variables: &mut Vec<Variable>,
    tail: &mut Vec<Instr>,
    ss: NodeId,
    n: u32,
    jumps: Jumps,
) -> Result<(), AllocError>
    requires { AreInside jumps tail.old.items }
    ensures { let s = source.now in let t = trees_of s in
        OnOk result (Walks t variables.old.items variables.new.items tail.old.items tail.new.items
        (statements_code (look_of s) (statements_at t ss) n jumps tail.old.items)) }
{
    let trees = source.trees;
    let list = declared(trees, variables, ss)?;
    let mut at = trees.after_statements(n, ss)?;
    let mut left = list.len();
    while left > 0 {
        left -= 1;
        let s = list[left];
        forget(trees, variables, s);
        at -= trees.statement_points(s);
        statement(source, variables, tail, s, at, jumps)?;
    }
    Ok(())
}

/// The numbers of statements in a row, whose variables are declared.
fn declared(
    trees: &Trees,
    variables: &mut Vec<Variable>,
    ss: NodeId,
) -> Result<Vec<NodeId>, AllocError>
    ensures list { let t = table trees.now in IfOk result (λ list. in_a_row t list.items ≡ statements_at t ss) }
    ensures variables { let t = table trees.now in OnOk result ((env : Environment) → InScope t env variables.old.items
        → InScope t (declare_all (statements_at t ss) env) variables.new.items) }
{
    let mut list = Vec::new(*variables.allocator());
    let mut rest = ss;
    while let StatementsNode::Then(s, next) = trees.statements(rest) {
        remember(trees, variables, s)?;
        list.push(s)?;
        rest = next;
    }
    Ok(list)
}

/// The variable of a statement comes into scope, if it declares one.
fn remember(trees: &Trees, variables: &mut Vec<Variable>, s: NodeId) -> Result<(), AllocError>
    ensures { let t = table trees.now in OnOk result ((env : Environment) → InScope t env variables.old.items
        → InScope t (declares (statement_at t s) env) variables.new.items) }
{
    match declaration(trees, s) {
        None => Ok(()),
        Some(v) => {
            variables.push(v)?;
            Ok(())
        }
    }
}

/// The variable of a statement, which is the newest one, goes out of scope, if it declares one.
fn forget(trees: &Trees, variables: &mut Vec<Variable>, s: NodeId)
    ensures { let t = table trees.now in (env : Environment)
        → InScope t (declares (statement_at t s) env) variables.old.items → InScope t env variables.new.items }
{
    if declaration(trees, s).is_some() {
        variables.pop();
    }
}

/// The variable that a statement declares.
fn declaration(trees: &Trees, s: NodeId) -> Option<Variable>
    ensures { let t = table trees.now in
        (env : Environment) → declares (statement_at t s) env ≡ with_variable_if t result env }
{
    match trees.statement(s) {
        StatementNode::Declare(declared, name, _) => Some(Variable { declared, name }),
        _ => None,
    }
}

/// A statement.
#[cycle(statement)]
fn statement(
    source: &Source,
    variables: &mut Vec<Variable>,
    tail: &mut Vec<Instr>,
    s: NodeId,
    n: u32,
    jumps: Jumps,
) -> Result<(), AllocError>
    requires { AreInside jumps tail.old.items }
    ensures { let t = trees_of source.now in
        OnOk result (Walks t variables.old.items variables.new.items tail.old.items tail.new.items
        (statement_code (look_of source.now) (statement_at t s) n jumps tail.old.items)) }
{
    match source.trees.statement(s) {
        StatementNode::Empty => Ok(()),
        StatementNode::Break => jump(tail, jumps.broken),
        StatementNode::Continue => jump(tail, jumps.continued),
        StatementNode::Evaluate(e) => dropped(source, variables.as_slice(), tail, e, n),
        StatementNode::Declare(declared, name, e) => {
            declare(source, variables, tail, (declared, name, e), n)
        }
        StatementNode::Return(e) => returned(source, variables.as_slice(), tail, e, n),
        StatementNode::UpdatePoint => checked_stop(tail, Stop::Update, CheckInKind::Update, n),
        StatementNode::Block(ss) => statements(source, variables, tail, ss, n, jumps),
        StatementNode::Transaction(ss) => transaction(source, variables, tail, ss, n, jumps),
        StatementNode::If(c, a) => conditional(source, variables, tail, (c, a), n, jumps),
        StatementNode::IfElse(c, a, b) => {
            alternative(source, variables, tail, (c, a, b), n, jumps)
        }
        StatementNode::While(test, body) => {
            let l = Loop {
                test: Some(test),
                step: None,
                body,
                first: n,
            };
            turns(source, variables, tail, l)
        }
        StatementNode::DoWhile(body, c) => do_turns(source, variables, tail, (body, c), n),
        StatementNode::For(first, test, step, body) => {
            for_turns(source, variables, tail, (first, test, step, body), n, jumps)
        }
    }
}

/// A jump to the place from which a tail had so many instructions.
fn jump(tail: &mut Vec<Instr>, to: usize) -> Result<(), AllocError>
    ensures { OnOk result ((t : Table) → Precedes t tail.old.items tail.new.items (Jump (length tail.old.items - to) ∷ [])) }
{
    let over = distance(tail, to)?;
    precede(tail, &[Instr::Jump(over)])
}

/// A declaration.
fn declare(
    source: &Source,
    variables: &mut Vec<Variable>,
    tail: &mut Vec<Instr>,
    declared: (ValueType, Word, Option<NodeId>),
    n: u32,
) -> Result<(), AllocError>
    ensures { let s = source.now in let t = trees_of s in
        let type = type_of t declared.0 in let name = word t declared.1 in
        OnOk result (Walks t variables.old.items variables.new.items tail.old.items tail.new.items
        (λ env. initial_of (look_of s) (with_variable type name env) type name (expression_if t declared.2) n)) }
{
    variables.push(Variable {
        declared: declared.0,
        name: declared.1,
    })?;
    initial(source, variables.as_slice(), tail, declared, n)?;
    variables.pop();
    Ok(())
}

/// A return.
fn returned(
    source: &Source,
    variables: &[Variable],
    tail: &mut Vec<Instr>,
    e: NodeId,
    n: u32,
) -> Result<(), AllocError>
    ensures { let s = source.now in let t = trees_of s in let tree = expression_at t e in
        OnOk result (Emits t variables.now tail.old.items tail.new.items
        (λ env. value_of (look_of s) env tree n ++ Halt stop.Return (n + size tree) ∷ [])) }
{
    let point = source.trees.behind(n, e)?;
    precede(tail, &[Instr::Halt(Stop::Return, point)])?;
    value(source, variables, tail, e, n)
}

/// A stop with its check-in.
fn checked_stop(
    tail: &mut Vec<Instr>,
    stop: Stop,
    kind: CheckInKind,
    n: u32,
) -> Result<(), AllocError>
    ensures { OnOk result ((t : Table) → Precedes t tail.old.items tail.new.items
        (Halt (stop_of t stop) n ∷ CheckIn (check_in_of kind) (suc n) ∷ [])) }
{
    let next = sum(n, 1)?;
    precede(tail, &[Instr::Halt(stop, n), Instr::CheckIn(kind, next)])
}

/// A transaction.
#[cycle(statement)]
fn transaction(
    source: &Source,
    variables: &mut Vec<Variable>,
    tail: &mut Vec<Instr>,
    ss: NodeId,
    n: u32,
    jumps: Jumps,
) -> Result<(), AllocError>
    requires { AreInside jumps tail.old.items }
    ensures { let s = source.now in let t = trees_of s in
        OnOk result (Walks t variables.old.items variables.new.items tail.old.items tail.new.items
        (statement_code (look_of s) (tree.Transaction (statements_at t ss)) n jumps tail.old.items)) }
{
    let inside = sum(n, 2)?;
    let end = source.trees.after_statements(inside, ss)?;
    checked_stop(tail, Stop::End, CheckInKind::End, end)?;
    statements(source, variables, tail, ss, inside, jumps)?;
    checked_stop(tail, Stop::Begin, CheckInKind::Begin, n)
}

/// A statement that is left out where a condition fails.
#[cycle(statement)]
fn conditional(
    source: &Source,
    variables: &mut Vec<Variable>,
    tail: &mut Vec<Instr>,
    parts: (NodeId, NodeId),
    n: u32,
    jumps: Jumps,
) -> Result<(), AllocError>
    requires { AreInside jumps tail.old.items }
    ensures { let s = source.now in let t = trees_of s in
        OnOk result (Walks t variables.old.items variables.new.items tail.old.items tail.new.items
        (statement_code (look_of s) (tree.If (expression_at t parts.0) (statement_at t parts.1)) n jumps tail.old.items)) }
{
    let (c, a) = parts;
    let past = tail.len();
    let inside = source.trees.behind(n, c)?;
    statement(source, variables, tail, a, inside, jumps)?;
    let over = distance(tail, past)?;
    condition(source, variables.as_slice(), tail, c, n, over)
}

/// One of two statements.
#[cycle(statement)]
fn alternative(
    source: &Source,
    variables: &mut Vec<Variable>,
    tail: &mut Vec<Instr>,
    parts: (NodeId, NodeId, NodeId),
    n: u32,
    jumps: Jumps,
) -> Result<(), AllocError>
    requires { AreInside jumps tail.old.items }
    ensures { let s = source.now in let t = trees_of s in
        OnOk result (Walks t variables.old.items variables.new.items tail.old.items tail.new.items
        (statement_code (look_of s) (tree.IfElse (expression_at t parts.0) (statement_at t parts.1) (statement_at t parts.2)) n jumps tail.old.items)) }
{
    let (c, a, b) = parts;
    let end = tail.len();
    let first = source.trees.behind(n, c)?;
    let second = source.trees.after_statement(first, a)?;
    statement(source, variables, tail, b, second, jumps)?;
    let other = tail.len();
    jump(tail, end)?;
    statement(source, variables, tail, a, first, jumps)?;
    let over = distance(tail, other)?;
    condition(source, variables.as_slice(), tail, c, n, over)
}

/// A loop that begins with its test. Its back edge leads to its beginning, which is known at the end.
#[cycle(statement)]
fn turns(
    source: &Source,
    variables: &mut Vec<Variable>,
    tail: &mut Vec<Instr>,
    l: Loop,
) -> Result<(), AllocError>
    ensures { let s = source.now in let t = trees_of s in
        OnOk result (Walks t variables.old.items variables.new.items tail.old.items tail.new.items
        (λ env. turns_code (look_of s) env (expression_if t l.test) (expression_if t l.step) (statement_at t l.body) l.first)) }
{
    let trees = source.trees;
    let body = trees.after_if(l.first, l.test)?;
    let step = trees.after_statement(body, l.body)?;
    let point = trees.after_if(step, l.step)?;
    let past = tail.len();
    let kept = count(variables.as_slice())?;
    precede(tail, &[Instr::Back(0, point, kept)])?;
    dropped_if(source, variables.as_slice(), tail, l.step, step)?;
    let before_step = tail.len();
    let jumps = Jumps {
        broken: past,
        continued: before_step,
    };
    statement(source, variables, tail, l.body, body, jumps)?;
    guard(source, variables.as_slice(), tail, l, past)?;
    lead_back(tail, past, point, kept)
}

/// The test of a loop, where there is one, with a jump past the loop.
fn guard(
    source: &Source,
    variables: &[Variable],
    tail: &mut Vec<Instr>,
    l: Loop,
    past: usize,
) -> Result<(), AllocError>
    ensures { let s = source.now in let t = trees_of s in
        OnOk result (Emits t variables.now tail.old.items tail.new.items
        (λ env. guard_code (look_of s) env (expression_if t l.test) l.first (length tail.old.items - past))) }
{
    let Some(c) = l.test else {
        return Ok(());
    };
    let over = distance(tail, past)?;
    condition(source, variables, tail, c, l.first, over)
}

/// A `do` loop.
#[cycle(statement)]
fn do_turns(
    source: &Source,
    variables: &mut Vec<Variable>,
    tail: &mut Vec<Instr>,
    parts: (NodeId, NodeId),
    n: u32,
) -> Result<(), AllocError>
    ensures { let s = source.now in let t = trees_of s in
        OnOk result (Walks t variables.old.items variables.new.items tail.old.items tail.new.items
        (λ env. do_code (look_of s) env (statement_at t parts.0) (expression_at t parts.1) n)) }
{
    let (body, c) = parts;
    let test = source.trees.after_statement(n, body)?;
    let point = source.trees.behind(test, c)?;
    let past = tail.len();
    let kept = count(variables.as_slice())?;
    precede(tail, &[Instr::Back(0, point, kept)])?;
    condition(source, variables.as_slice(), tail, c, test, 1)?;
    let before_test = tail.len();
    let jumps = Jumps {
        broken: past,
        continued: before_test,
    };
    statement(source, variables, tail, body, n, jumps)?;
    lead_back(tail, past, point, kept)
}

/// A `for` loop.
#[cycle(statement)]
fn for_turns(
    source: &Source,
    variables: &mut Vec<Variable>,
    tail: &mut Vec<Instr>,
    parts: (NodeId, Option<NodeId>, Option<NodeId>, NodeId),
    n: u32,
    jumps: Jumps,
) -> Result<(), AllocError>
    requires { AreInside jumps tail.old.items }
    ensures { let s = source.now in let t = trees_of s in
        OnOk result (Walks t variables.old.items variables.new.items tail.old.items tail.new.items
        (statement_code (look_of s) (tree.For (statements_at t parts.0) (expression_if t parts.1) (expression_if t parts.2) (statement_at t parts.3)) n jumps tail.old.items)) }
{
    let (first, test, step, body) = parts;
    let outside = variables.len();
    declared(source.trees, variables, first)?;
    let l = Loop {
        test,
        step,
        body,
        first: source.trees.after_statements(n, first)?,
    };
    turns(source, variables, tail, l)?;
    variables.truncate(outside);
    statements(source, variables, tail, first, n, jumps)
}
