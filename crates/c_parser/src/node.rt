ghost use Rattle.std.specs.Prelude.{◌≡◌};
ghost use Rattle.c_expr_parser.specs.Statements.{stmt};
ghost use Rattle.c_tree.specs.declared.stmt.StmtNode.TheVariants.{While, DoWhile, For};
ghost use Rattle.c_parser.specs.TextPlans.{if_else};
ghost use Rattle.c_parser.specs.Parts.{else_found};

use crate::simple::made;
use c_tree::{Expr, Stmt, StmtNode};
use dsu_io::{Boxed, List};

/// An `if`, with its `else` or without.
pub fn if_made(
    start: usize,
    condition: Boxed<Expr>,
    first: Boxed<Stmt>,
    second: Option<Boxed<Stmt>>,
) -> Stmt
    ensures { result ≡ stmt start (if_else condition first (else_found second)) }
{
    match second {
        Some(second) => made(
            start,
            StmtNode::IfElse(condition.into_inner(), first, second),
        ),
        None => made(start, StmtNode::If(condition.into_inner(), first)),
    }
}

/// A `while`.
pub fn while_made(start: usize, condition: Boxed<Expr>, body: Boxed<Stmt>) -> Stmt
    ensures { result ≡ stmt start (While condition body) }
{
    made(start, StmtNode::While(condition.into_inner(), body))
}

/// The node of a `do`.
pub fn do_made(body: Boxed<Stmt>, condition: Boxed<Expr>) -> StmtNode<Stmt>
    ensures { result ≡ DoWhile body condition }
{
    StmtNode::DoWhile(body, condition.into_inner())
}

/// An expression, or none, from the heap.
fn taken_out(value: Option<Boxed<Expr>>) -> Option<Expr>
    ensures { result ≡ value }
{
    match value {
        Some(value) => Some(value.into_inner()),
        None => None,
    }
}

/// A `for`.
pub fn for_made(
    start: usize,
    before: List<Stmt>,
    condition: Option<Boxed<Expr>>,
    step: Option<Boxed<Expr>>,
    body: Boxed<Stmt>,
) -> Stmt
    ensures { result ≡ stmt start (For before condition step body) }
{
    let node = StmtNode::For(before, taken_out(condition), taken_out(step), body);
    made(start, node)
}
