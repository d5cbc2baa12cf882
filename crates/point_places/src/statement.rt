//! The places of the points of a statement.
ghost use Rattle.std.specs.Prelude.{◌≡◌, ◌++◌, ◌∷◌, [], OnOk};
ghost use Rattle.c_tree.specs.declared.stmt.Stmt.{out-Stmt};
ghost use Rattle.c_semantics.specs.Places.{places_in, places_if, expression_of, step_of, first_of, inner, statements_of, statement_places, statements_places, no_statement, begins_at};
ghost use Rattle.resolved_tree.specs.Nodes.{expression_at, expression_if, statement_at, statement_of, statements_at};
ghost use Rattle.resolved_tree.specs.Trees.{table};

use crate::append::{one, two};
use crate::evaluated::{evaluate, evaluate_if, evaluate_then, step_then};
use crate::parts::{closing, first, inner, no_statement, nth};
use c_tree::Stmt;
use resolved_tree::{NodeId, StatementNode, StatementsNode, Trees, later};
use std::alloc::AllocError;

/// The places of the points of a statement, whose tree with places is `s`, are added.
#[cycle(statement)]
fn statement(trees: &Trees, id: NodeId, s: &Stmt, places: &mut Vec<usize>) -> Result<(), AllocError>
    ensures { OnOk result (places.new.items
        ≡ places.old.items ++ statement_places (statement_at (table trees.now) id) s.now) }
{
    node(trees, trees.statement(id), s, places)
}

/// Those of a statement that is made of a node.
#[cycle(statement)]
fn node(
    trees: &Trees,
    node: StatementNode,
    s: &Stmt,
    places: &mut Vec<usize>,
) -> Result<(), AllocError>
    ensures { OnOk result (places.new.items
        ≡ places.old.items ++ statement_places (statement_of (table trees.now) node) s.now) }
{
    match node {
        StatementNode::Block(list) => block(trees, list, s, places),
        StatementNode::Empty | StatementNode::Break | StatementNode::Continue => Ok(()),
        StatementNode::Evaluate(e) => evaluate(trees, e, s, places),
        StatementNode::Declare(_, _, e) => evaluate_if(trees, e, s, places),
        StatementNode::If(test, a) => guarded(trees, test, a, s, places),
        StatementNode::IfElse(test, a, b) => {
            guarded(trees, test, a, s, places)?;
            statement(trees, b, inner(s, 1, s), places)
        }
        StatementNode::While(test, a) => {
            guarded(trees, test, a, s, places)?;
            one(s.place, places)
        }
        StatementNode::DoWhile(a, test) => {
            statement(trees, a, inner(s, 0, s), places)?;
            evaluate_then(trees, test, s, places)
        }
        StatementNode::For(start, test, step, a) => {
            sequence(trees, start, first(s), places)?;
            turn(trees, test, a, s, places)?;
            step_then(trees, step, s, places)
        }
        StatementNode::Return(e) => evaluate_then(trees, e, s, places),
        StatementNode::UpdatePoint => two(s.place, places),
        StatementNode::Transaction(list) => {
            two(s.place, places)?;
            block(trees, list, s, places)?;
            two(closing(s), places)
        }
    }
}

/// Those of a test and of the statement after it.
#[cycle(statement)]
fn guarded(
    trees: &Trees,
    test: NodeId,
    a: NodeId,
    s: &Stmt,
    places: &mut Vec<usize>,
) -> Result<(), AllocError>
    ensures { OnOk result (places.new.items ≡ places.old.items
        ++ (places_in (expression_at (table trees.now) test) (expression_of (out-Stmt s.now).node)
        ++ statement_places (statement_at (table trees.now) a) (inner 0 s.now))) }
{
    evaluate(trees, test, s, places)?;
    statement(trees, a, inner(s, 0, s), places)
}

/// Those of the test of a `for`, if it has one, and of its body.
#[cycle(statement)]
fn turn(
    trees: &Trees,
    test: Option<NodeId>,
    a: NodeId,
    s: &Stmt,
    places: &mut Vec<usize>,
) -> Result<(), AllocError>
    ensures { OnOk result (places.new.items ≡ places.old.items
        ++ (places_if (expression_if (table trees.now) test) (expression_of (out-Stmt s.now).node)
        ++ statement_places (statement_at (table trees.now) a) (inner 0 s.now))) }
{
    evaluate_if(trees, test, s, places)?;
    statement(trees, a, inner(s, 0, s), places)
}

/// Those of the statements of which a statement is made.
#[cycle(statement)]
fn block(trees: &Trees, list: NodeId, s: &Stmt, places: &mut Vec<usize>) -> Result<(), AllocError>
    ensures { OnOk result (places.new.items ≡ places.old.items
        ++ statements_places (statements_at (table trees.now) list) (statements_of (out-Stmt s.now).node)) }
{
    let missing = no_statement();
    let done = each_inner(trees, list, s, &missing, places);
    drop(missing);
    done
}

/// The same, with what stands for a statement that isn't there.
#[cycle(statement)]
fn each_inner(
    trees: &Trees,
    list: NodeId,
    s: &Stmt,
    missing: &Stmt,
    places: &mut Vec<usize>,
) -> Result<(), AllocError>
    ensures { missing.now ≡ no_statement → OnOk result (places.new.items ≡ places.old.items
        ++ statements_places (statements_at (table trees.now) list) (statements_of (out-Stmt s.now).node)) }
{
    let mut rest = list;
    let mut k = 0;
    while let StatementsNode::Then(a, next) = trees.statements(rest) {
        statement(trees, a, inner(s, k, missing), places)?;
        rest = next;
        k = later(k)?;
    }
    Ok(())
}

/// Those of the statements of a list.
#[cycle(statement)]
pub(crate) fn sequence(
    trees: &Trees,
    list: NodeId,
    stmts: &[Stmt],
    places: &mut Vec<usize>,
) -> Result<(), AllocError>
    ensures { OnOk result (places.new.items
        ≡ places.old.items ++ statements_places (statements_at (table trees.now) list) stmts.now) }
{
    let missing = no_statement();
    let done = each_of(trees, list, stmts, &missing, places);
    drop(missing);
    done
}

/// The same, with what stands for a statement that isn't there.
#[cycle(statement)]
fn each_of(
    trees: &Trees,
    list: NodeId,
    stmts: &[Stmt],
    missing: &Stmt,
    places: &mut Vec<usize>,
) -> Result<(), AllocError>
    ensures { missing.now ≡ no_statement → OnOk result (places.new.items
        ≡ places.old.items ++ statements_places (statements_at (table trees.now) list) stmts.now) }
{
    let mut rest = list;
    let mut k = 0;
    while let StatementsNode::Then(a, next) = trees.statements(rest) {
        statement(trees, a, nth(stmts, k, missing), places)?;
        rest = next;
        k = later(k)?;
    }
    Ok(())
}
