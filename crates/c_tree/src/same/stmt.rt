ghost use Rattle.std.specs.Prelude.{IsTrue, ◌≡◌, ◌↔◌, map, option_map};
ghost use Rattle.c_tree.specs.Bare.{bare_block, bare_declaration, bare_expr, bare_stmt};

use crate::expr::Expr;
use crate::same::ctype::same_type;
use crate::same::expr::same_expr;
use crate::stmt::{Declaration, Stmt, StmtNode as Node};
use dsu_io::{Boxed, List};

/// Whether two statements are the same but for their places.
#[cycle(same_stmt)]
pub fn same_stmt(a: &Stmt, b: &Stmt) -> bool
    ensures { IsTrue result ↔ (bare_stmt a.now ≡ bare_stmt b.now) }
{
    match &a.node {
        Node::Block(x) => match &b.node {
            Node::Block(y) => same_block(x, y),
            _ => false,
        },
        Node::Empty => match &b.node {
            Node::Empty => true,
            _ => false,
        },
        Node::Evaluate(x) => match &b.node {
            Node::Evaluate(y) => same_expr(x, y),
            _ => false,
        },
        Node::Declare(x) => match &b.node {
            Node::Declare(y) => same_declaration(x, y),
            _ => false,
        },
        Node::If(x, s) => match &b.node {
            Node::If(y, t) => same_expr(x, y) && same_inner(s, t),
            _ => false,
        },
        Node::IfElse(x, s, t) => match &b.node {
            Node::IfElse(y, u, v) => same_expr(x, y) && same_inner(s, u) && same_inner(t, v),
            _ => false,
        },
        Node::While(x, s) => match &b.node {
            Node::While(y, t) => same_expr(x, y) && same_inner(s, t),
            _ => false,
        },
        Node::DoWhile(s, x) => match &b.node {
            Node::DoWhile(t, y) => same_expr(x, y) && same_inner(s, t),
            _ => false,
        },
        Node::For(first, test, step, s) => match &b.node {
            Node::For(f, c, e, t) => same_block(first, f)
                && same_optional(test, c)
                && same_optional(step, e)
                && same_inner(s, t),
            _ => false,
        },
        Node::Break => match &b.node {
            Node::Break => true,
            _ => false,
        },
        Node::Continue => match &b.node {
            Node::Continue => true,
            _ => false,
        },
        Node::Return => match &b.node {
            Node::Return => true,
            _ => false,
        },
        Node::ReturnValue(x) => match &b.node {
            Node::ReturnValue(y) => same_expr(x, y),
            _ => false,
        },
        Node::Update => match &b.node {
            Node::Update => true,
            _ => false,
        },
        Node::Transaction(x, _) => match &b.node {
            Node::Transaction(y, _) => same_block(x, y),
            _ => false,
        },
    }
}

#[cycle(same_stmt)]
fn same_inner(a: &Boxed<Stmt>, b: &Boxed<Stmt>) -> bool
    ensures { IsTrue result ↔ (bare_stmt a.now ≡ bare_stmt b.now) }
{
    same_stmt(a.get(), b.get())
}

/// Whether two blocks hold the same statements in order.
#[cycle(same_stmt)]
pub fn same_block(a: &List<Stmt>, b: &List<Stmt>) -> bool
    ensures { IsTrue result ↔ (bare_block (map bare_stmt a.now) ≡ bare_block (map bare_stmt b.now)) }
{
    same_stmts(a.as_slice(), b.as_slice())
}

#[cycle(same_stmt)]
fn same_stmts(a: &[Stmt], b: &[Stmt]) -> bool
    ensures { IsTrue result ↔ (map bare_stmt a.now ≡ map bare_stmt b.now) }
{
    if a.len() != b.len() {
        return false;
    }
    for i in 0..a.len() {
        if !same_stmt(&a[i], &b[i]) {
            return false;
        }
    }
    true
}

/// Whether two declared variables are the same but for their places.
pub fn same_declaration(a: &Declaration, b: &Declaration) -> bool
    ensures { IsTrue result ↔ (bare_declaration a.now ≡ bare_declaration b.now) }
{
    same_type(&a.declared, &b.declared)
        && a.name.text == b.name.text
        && same_optional(&a.initial, &b.initial)
}

fn same_optional(a: &Option<Expr>, b: &Option<Expr>) -> bool
    ensures { IsTrue result ↔ (option_map bare_expr a.now ≡ option_map bare_expr b.now) }
{
    match a {
        Some(x) => matches!(b, Some(y) if same_expr(x, y)),
        None => b.is_none(),
    }
}
