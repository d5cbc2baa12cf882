ghost use Rattle.c_lexer.specs.declared.token.Token.{Token};
ghost use Rattle.std.specs.Prelude.{◌≡◌, ◌∷◌, ◌≤◌, length, IfOk, MatchOption};
ghost use Rattle.c_expr_parser.specs.Tables.{ahead, look, postfix_operator, postfix_operators};
ghost use Rattle.c_expr_parser.specs.Plans.{Postfix, one_postfix, primary, operand as operand_value, parsed, read, reads, Finds};

use crate::cursor::{name, shallow};
use crate::nodes::{arrow, dot, step, unary_of};
use crate::operand::Operand;
use crate::stop::Stop;
use c_lexer::{Token, TokenKind};
use c_tree::{Expr, ExprNode, StepOp};
use std::alloc::Global;

/// What a postfix operator does (6.5.2).
#[derive(Clone, Copy)]
pub enum PostfixOp {
    Arrow,
    Dot,
    Increment,
    Decrement,
}

/// The postfix operator that the first token is, and the tokens after it.
fn postfix_ahead(tokens: &[Token]) -> Option<(PostfixOp, &[Token])>
    ensures { MatchOption result (ahead postfix_operator tokens.now ≡ None)
        (λ x. (t : Token) × (tokens.now ≡ t ∷ x.1.now) × (postfix_operator t ≡ Some x.0)) }
{
    let (first, rest) = tokens.split_first()?;
    if first.kind != TokenKind::Punctuator {
        return None;
    }
    let op = spelled(first.text.as_str())?;
    Some((op, rest))
}

fn spelled(text: &str) -> Option<PostfixOp>
    ensures { result ≡ look text.now postfix_operators }
{
    match text {
        "->" => Some(PostfixOp::Arrow),
        "." => Some(PostfixOp::Dot),
        "++" => Some(PostfixOp::Increment),
        "--" => Some(PostfixOp::Decrement),
        _ => None,
    }
}

/// An operand with the postfix operators after it.
pub fn postfix<'a>(
    alloc: Global,
    first: Operand,
    tokens: &'a [Token],
    depth: u32,
) -> Result<(Operand, &'a [Token]), Stop>
    ensures reads { Finds (reads (Postfix depth first) tokens.now) (λ x. read (operand_value x.0) x.1.now) result }
    ensures within { IfOk result (λ x. length x.1.now ≤ length tokens.now) }
{
    let mut a = first;
    let mut rest = tokens;
    while let Some((operator, behind)) = postfix_ahead(rest) {
        shallow(rest, depth)?;
        let (b, further) = one_postfix(alloc, operator, a, behind, depth)?;
        a = b;
        rest = further;
    }
    Ok((a, rest))
}

/// A primary expression of a node that begins at a place (6.5.1), with the postfix operators after it.
pub fn primary<'a>(
    alloc: Global,
    start: usize,
    node: ExprNode<Expr>,
    tokens: &'a [Token],
    depth: u32,
) -> Result<(Operand, &'a [Token]), Stop>
    ensures reads { Finds (parsed (primary depth start node) tokens.now) (λ x. read (operand_value x.0) x.1.now) result }
    ensures within { IfOk result (λ x. length x.1.now ≤ length tokens.now) }
{
    let first = unary_of(alloc, start, node)?;
    postfix(alloc, first, tokens, depth)
}

/// An operand with one postfix operator, after the operator's punctuator.
fn one_postfix<'a>(
    alloc: Global,
    operator: PostfixOp,
    a: Operand,
    tokens: &'a [Token],
    depth: u32,
) -> Result<(Operand, &'a [Token]), Stop>
    ensures reads { Finds (parsed (one_postfix depth a operator) tokens.now) (λ x. read (operand_value x.0) x.1.now) result }
    ensures within { IfOk result (λ x. length x.1.now ≤ length tokens.now) }
{
    let start = a.start;
    match operator {
        PostfixOp::Arrow => {
            let (field, rest) = name(tokens, depth)?;
            Ok((arrow(alloc, a, field)?, rest))
        }
        PostfixOp::Dot => {
            let (field, rest) = name(tokens, depth)?;
            Ok((dot(alloc, a, field)?, rest))
        }
        PostfixOp::Increment => Ok((step(alloc, StepOp::PostIncrement, start, a)?, tokens)),
        PostfixOp::Decrement => Ok((step(alloc, StepOp::PostDecrement, start, a)?, tokens)),
    }
}
