ghost use Rattle.std.specs.Prelude.{◌≡◌, ◌+◌, ◌≤◌, min, map};
ghost use Rattle.c_expr_types.specs.Need.{body_need, optional_need, stmt_need};
ghost use Rattle.c_types.specs.Statements.{total, variables};

use crate::limits::MOST_VARIABLES;
use c_expr_types::need;
use c_tree::{Expr, Stmt, StmtNode as Node};

/// More than any number that is allowed; greater numbers aren't told apart.
const TOO_MANY: u32 = MOST_VARIABLES as u32 + 1;

/// Two numbers of variables together.
fn together(a: u32, b: u32) -> u32
    requires a { a ≤ 65 }
    requires b { b ≤ 65 }
    ensures { result ≡ min (a + b) 65 }
{
    (a + b).min(TOO_MANY)
}

/// How many variables statements declare, or 65 where they declare more.
#[cycle(variables)]
pub(crate) fn variables(body: &[Stmt]) -> u32
    ensures { result ≡ min (total (map variables body.now)) 65 }
{
    let mut count = 0;
    for stmt in body {
        count = together(count, variables_of(stmt));
    }
    count
}

/// How many variables a statement declares, or 65 where it declares more.
#[cycle(variables)]
fn variables_of(stmt: &Stmt) -> u32
    ensures { result ≡ min (variables stmt.now) 65 }
{
    match &stmt.node {
        Node::Block(body) => variables(body.as_slice()),
        Node::Declare(_) => 1,
        Node::If(_, body) => variables_of(body.get()),
        Node::IfElse(_, body, otherwise) => {
            together(variables_of(body.get()), variables_of(otherwise.get()))
        }
        Node::While(_, body) => variables_of(body.get()),
        Node::DoWhile(body, _) => variables_of(body.get()),
        Node::For(first, _, _, body) => {
            together(variables(first.as_slice()), variables_of(body.get()))
        }
        Node::Transaction(body, _) => variables(body.as_slice()),
        Node::Empty | Node::Evaluate(_) | Node::Update => 0,
        Node::Break | Node::Continue | Node::Return | Node::ReturnValue(_) => 0,
    }
}

/// The operand need of an expression that may be absent, or 65 where it is greater.
pub(crate) fn optional_need(expr: &Option<Expr>) -> u32
    ensures { result ≡ min (optional_need expr.now) 65 }
{
    match expr {
        Some(expr) => need(expr),
        None => 0,
    }
}

/// The greatest operand need in statements, or 65 where it is greater.
#[cycle(body_need)]
pub(crate) fn body_need(body: &[Stmt]) -> u32
    ensures { result ≡ min (body_need body.now) 65 }
{
    let mut most = 0;
    for stmt in body {
        most = most.max(stmt_need(stmt));
    }
    most
}

/// The greatest operand need in a statement, or 65 where it is greater.
#[cycle(body_need)]
fn stmt_need(stmt: &Stmt) -> u32
    ensures { result ≡ min (stmt_need stmt.now) 65 }
{
    match &stmt.node {
        Node::Block(body) => body_need(body.as_slice()),
        Node::Evaluate(expr) => need(expr),
        Node::Declare(declaration) => optional_need(&declaration.initial),
        Node::If(test, body) => need(test).max(stmt_need(body.get())),
        Node::IfElse(test, body, otherwise) => {
            need(test).max(stmt_need(body.get()).max(stmt_need(otherwise.get())))
        }
        Node::While(test, body) => need(test).max(stmt_need(body.get())),
        Node::DoWhile(body, test) => stmt_need(body.get()).max(need(test)),
        Node::For(first, test, step, body) => {
            let of_parts = optional_need(test).max(optional_need(step).max(stmt_need(body.get())));
            body_need(first.as_slice()).max(of_parts)
        }
        Node::ReturnValue(expr) => need(expr),
        Node::Transaction(body, _) => body_need(body.as_slice()),
        Node::Empty | Node::Update | Node::Break | Node::Continue | Node::Return => 0,
    }
}
