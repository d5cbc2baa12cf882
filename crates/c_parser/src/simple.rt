ghost use Rattle.std.specs.Prelude.{◌≡◌, ◌<◌, ◌≤◌, ◌+◌, length, IfOk, Option, None};
ghost use Rattle.c_tree.specs.declared.expr.Expr.{Expr};
ghost use Rattle.c_tree.specs.declared.stmt.Stmt.{Stmt};
ghost use Rattle.c_expr_parser.specs.Readings.{most_depth};
ghost use Rattle.c_expr_parser.specs.Statements.{stmt};
ghost use Rattle.c_expr_parser.specs.Tables.{prefix_of};
ghost use Rattle.c_parser.specs.TextPlans.{TextPlan, statement, found, returned, simple, test_then, update_statement, text_parsed, FindsText};
ghost use Rattle.c_parser.specs.Parts.{return_plan, optional_then, evaluate_then};

use crate::ahead::is_ahead;
use c_expr_parser::parts::{Stop, assignment, take};
use c_lexer::{Token, TokenKind};
use c_tree::{Expr, Stmt, StmtNode};
use dsu_io::Boxed;
use std::alloc::Global;

/// The statement of a node that begins at a place.
pub fn made(place: usize, node: StmtNode<Stmt>) -> Stmt
    ensures { result ≡ stmt place node }
{
    Stmt { place, node }
}

/// The semicolon of a statement of a node.
pub fn simple<'a>(
    start: usize,
    node: StmtNode<Stmt>,
    tokens: &'a [Token],
    depth: u32,
) -> Result<(Stmt, &'a [Token]), Stop>
    ensures reads { FindsText (text_parsed (simple depth start node) tokens.now) (λ x. found (statement x.0) x.1.now) result }
    ensures within { IfOk result (λ x. length x.1.now < length tokens.now) }
{
    let rest = take(tokens, TokenKind::Punctuator, ";", depth)?;
    Ok((made(start, node), rest))
}

/// An expression's statement (6.8.3) that begins at a place, with its semicolon.
pub fn evaluate<'a>(
    alloc: Global,
    start: usize,
    tokens: &'a [Token],
    depth: u32,
) -> Result<(Stmt, &'a [Token]), Stop>
    requires { depth ≤ most_depth + 1 }
    ensures reads { (k : Stmt → TextPlan) → FindsText (text_parsed (evaluate_then depth start k) tokens.now) (λ x. text_parsed (k x.0) x.1.now) result }
    ensures within { IfOk result (λ x. length x.1.now < length tokens.now) }
{
    let (value, rest) = assignment(alloc, tokens, depth)?;
    let rest = take(rest, TokenKind::Punctuator, ";", depth)?;
    let node = StmtNode::Evaluate(value.expr.into_inner());
    Ok((made(start, node), rest))
}

/// A test in parentheses (6.8.4, 6.8.5).
pub fn test<'a>(
    alloc: Global,
    tokens: &'a [Token],
    depth: u32,
) -> Result<(Boxed<Expr>, &'a [Token]), Stop>
    requires { depth ≤ most_depth }
    ensures reads { (k : Expr → TextPlan) → FindsText (text_parsed (test_then depth k) tokens.now) (λ x. text_parsed (k x.0) x.1.now) result }
    ensures within { IfOk result (λ x. length x.1.now < length tokens.now) }
{
    let rest = take(tokens, TokenKind::Punctuator, "(", depth)?;
    let (value, rest) = assignment(alloc, rest, depth + 1)?;
    let rest = take(rest, TokenKind::Punctuator, ")", depth)?;
    Ok((value.expr, rest))
}

/// An expression or nothing, and the punctuator after it, which begins no expression.
pub fn optional<'a>(
    alloc: Global,
    tokens: &'a [Token],
    depth: u32,
    punctuator: &str,
    punctuator_depth: u32,
) -> Result<(Option<Boxed<Expr>>, &'a [Token]), Stop>
    requires shallow { depth ≤ most_depth + 1 }
    requires ends { prefix_of punctuator.now ≡ None }
    ensures reads { (k : Option Expr → TextPlan) → FindsText (text_parsed (optional_then depth punctuator.now punctuator_depth k) tokens.now) (λ x. text_parsed (k x.0) x.1.now) result }
    ensures within { IfOk result (λ x. length x.1.now < length tokens.now) }
{
    if is_ahead(tokens, TokenKind::Punctuator, punctuator) {
        let rest = take(tokens, TokenKind::Punctuator, punctuator, punctuator_depth)?;
        return Ok((None, rest));
    }
    let (value, rest) = assignment(alloc, tokens, depth)?;
    let rest = take(rest, TokenKind::Punctuator, punctuator, punctuator_depth)?;
    Ok((Some(value.expr), rest))
}

/// The rest of a `return` (6.8.6.4).
pub fn return_statement<'a>(
    alloc: Global,
    start: usize,
    tokens: &'a [Token],
    depth: u32,
) -> Result<(Stmt, &'a [Token]), Stop>
    requires { depth ≤ most_depth }
    ensures reads { FindsText (text_parsed (return_plan depth start) tokens.now) (λ x. found (statement x.0) x.1.now) result }
    ensures within { IfOk result (λ x. length x.1.now < length tokens.now) }
{
    let (value, rest) = optional(alloc, tokens, depth, ";", depth)?;
    Ok((made(start, returned(value)), rest))
}

/// The node of a `return` with a value or none.
fn returned(value: Option<Boxed<Expr>>) -> StmtNode<Stmt>
    ensures { result ≡ returned value }
{
    match value {
        Some(value) => StmtNode::ReturnValue(value.into_inner()),
        None => StmtNode::Return,
    }
}

/// The rest of `dsu_update();`.
pub fn update<'a>(
    start: usize,
    tokens: &'a [Token],
    depth: u32,
) -> Result<(Stmt, &'a [Token]), Stop>
    ensures reads { FindsText (text_parsed (update_statement depth start) tokens.now) (λ x. found (statement x.0) x.1.now) result }
    ensures within { IfOk result (λ x. length x.1.now < length tokens.now) }
{
    let rest = take(tokens, TokenKind::Punctuator, "(", depth)?;
    let rest = take(rest, TokenKind::Punctuator, ")", depth)?;
    simple(start, StmtNode::Update, rest, depth)
}
