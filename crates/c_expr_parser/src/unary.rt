ghost use Rattle.std.specs.Prelude.{◌≡◌, ◌∷◌, ◌+◌, ◌<◌, ◌≤◌, length, List, IfOk};
ghost use Rattle.c_lexer.specs.declared.token.Token.{Token};
ghost use Rattle.c_tree.specs.declared.expr.ExprNode.TheVariants.{Number, Character};
ghost use Rattle.c_expr_parser.specs.Readings.{most_depth};
ghost use Rattle.c_expr_parser.specs.Plans.{at_depth, prefixed, primary, behind_name, arguments, wanted, Inside, Further, operand as operand_value, listed, read, parsed, reads, Finds};

use crate::climb::assignment;
use crate::constants::constant;
use crate::cursor::{shallow, skip, take};
use crate::library::library;
use crate::nodes::{convert, prefix, push, step};
use crate::operand::Operand;
use crate::operators::{Prefix, prefix_of};
use crate::postfix::{postfix, primary};
use crate::quoted::character;
use crate::stop::Stop;
use crate::type_name::{begins_type, type_name};
use c_ints::Int;
use c_lexer::{Token, TokenKind};
use c_tree::{Expr, ExprNode, StepOp};
use dsu_io::List;
use std::alloc::Global;

/// A cast (6.5.4), or where none is wanted a unary expression (6.5.3).
#[cycle(expression)]
pub fn operand<'a>(
    alloc: Global,
    tokens: &'a [Token],
    depth: u32,
    casts: bool,
) -> Result<(Operand, &'a [Token]), Stop>
    requires { depth ≤ most_depth + 1 }
    ensures reads { Finds (reads (wanted casts depth) tokens.now) (λ x. read (operand_value x.0) x.1.now) result }
    ensures within { IfOk result (λ x. length x.1.now < length tokens.now) }
{
    let Some((first, rest)) = tokens.split_first() else {
        return Err(Stop::Stuck(0));
    };
    match first.kind {
        TokenKind::Identifier => {
            shallow(tokens, depth)?;
            named(alloc, first, rest, depth)
        }
        TokenKind::Number => match constant(first.text.as_str()) {
            Some(value) => integer_constant(alloc, tokens, depth, value),
            None => Err(Stop::Stuck(tokens.len())),
        },
        TokenKind::Character => match character(first.text.as_str()) {
            Some(value) => character_constant(alloc, tokens, depth, value),
            None => Err(Stop::Stuck(tokens.len())),
        },
        TokenKind::Punctuator => begun_by_punctuator(alloc, tokens, depth, casts),
        TokenKind::LibraryWord => library(alloc, tokens, depth),
        TokenKind::Keyword | TokenKind::Str => Err(Stop::Stuck(tokens.len())),
    }
}

/// An integer constant of a value that the first token is, with what follows it (6.4.4.1).
fn integer_constant<'a>(
    alloc: Global,
    tokens: &'a [Token],
    depth: u32,
    value: Int,
) -> Result<(Operand, &'a [Token]), Stop>
    ensures reads { (t : Token) → (ts : List Token) → tokens.now ≡ t ∷ ts → Finds (at_depth depth (length tokens.now) (parsed (primary depth t.at (Number value)) ts)) (λ x. read (operand_value x.0) x.1.now) result }
    ensures within { IfOk result (λ x. length x.1.now < length tokens.now) }
{
    let Some((first, rest)) = tokens.split_first() else {
        return Err(Stop::Stuck(0));
    };
    shallow(tokens, depth)?;
    primary(alloc, first.at, ExprNode::Number(value), rest, depth)
}

/// A character constant of a value that the first token is, with what follows it (6.4.4.4).
fn character_constant<'a>(
    alloc: Global,
    tokens: &'a [Token],
    depth: u32,
    value: Int,
) -> Result<(Operand, &'a [Token]), Stop>
    ensures reads { (t : Token) → (ts : List Token) → tokens.now ≡ t ∷ ts → Finds (at_depth depth (length tokens.now) (parsed (primary depth t.at (Character value)) ts)) (λ x. read (operand_value x.0) x.1.now) result }
    ensures within { IfOk result (λ x. length x.1.now < length tokens.now) }
{
    let Some((first, rest)) = tokens.split_first() else {
        return Err(Stop::Stuck(0));
    };
    shallow(tokens, depth)?;
    primary(alloc, first.at, ExprNode::Character(value), rest, depth)
}

/// An operand that begins with a punctuator.
#[cycle(expression)]
fn begun_by_punctuator<'a>(
    alloc: Global,
    tokens: &'a [Token],
    depth: u32,
    casts: bool,
) -> Result<(Operand, &'a [Token]), Stop>
    requires { depth ≤ most_depth + 1 }
    ensures reads { (t : Token) → (ts : List Token) → tokens.now ≡ t ∷ ts → t.kind ≡ TokenKind.Punctuator → Finds (reads (wanted casts depth) tokens.now) (λ x. read (operand_value x.0) x.1.now) result }
    ensures within { IfOk result (λ x. length x.1.now < length tokens.now) }
{
    let Some((first, rest)) = tokens.split_first() else {
        return Err(Stop::Stuck(0));
    };
    let Some(form) = prefix_of(first.text.as_str()) else {
        return Err(Stop::Stuck(tokens.len()));
    };
    shallow(tokens, depth)?;
    prefixed(alloc, form, first.at, rest, depth, casts)
}

/// What follows a punctuator that begins an operand at a place.
#[cycle(expression)]
fn prefixed<'a>(
    alloc: Global,
    form: Prefix,
    start: usize,
    tokens: &'a [Token],
    depth: u32,
    casts: bool,
) -> Result<(Operand, &'a [Token]), Stop>
    requires { depth ≤ most_depth }
    ensures reads { Finds (parsed (prefixed casts depth start form) tokens.now) (λ x. read (operand_value x.0) x.1.now) result }
    ensures within { IfOk result (λ x. length x.1.now ≤ length tokens.now) }
{
    match form {
        Prefix::Open => inside(alloc, start, tokens, depth, casts),
        Prefix::Increment => {
            let (a, rest) = operand(alloc, tokens, depth + 1, false)?;
            Ok((step(alloc, StepOp::PreIncrement, start, a)?, rest))
        }
        Prefix::Decrement => {
            let (a, rest) = operand(alloc, tokens, depth + 1, false)?;
            Ok((step(alloc, StepOp::PreDecrement, start, a)?, rest))
        }
        Prefix::Operator(op) => {
            let (a, rest) = operand(alloc, tokens, depth + 1, true)?;
            Ok((prefix(alloc, op, start, a)?, rest))
        }
    }
}

/// What follows an opening parenthesis: a type and the operand that is converted to it, or an expression in parentheses.
#[cycle(expression)]
fn inside<'a>(
    alloc: Global,
    start: usize,
    tokens: &'a [Token],
    depth: u32,
    casts: bool,
) -> Result<(Operand, &'a [Token]), Stop>
    requires { depth ≤ most_depth }
    ensures reads { Finds (reads (Inside casts depth start) tokens.now) (λ x. read (operand_value x.0) x.1.now) result }
    ensures within { IfOk result (λ x. length x.1.now < length tokens.now) }
{
    let Some((first, _)) = tokens.split_first() else {
        return Err(Stop::Stuck(0));
    };
    if !begins_type(first) {
        let (a, rest) = assignment(alloc, tokens, depth + 1)?;
        let rest = take(rest, TokenKind::Punctuator, ")", depth)?;
        let a = Operand {
            expr: a.expr,
            start,
            is_unary: true,
        };
        return postfix(alloc, a, rest, depth);
    }
    if !casts {
        return Err(Stop::Stuck(tokens.len()));
    }
    let (to, rest) = type_name(tokens, depth + 1)?;
    let rest = take(rest, TokenKind::Punctuator, ")", depth)?;
    let (a, rest) = operand(alloc, rest, depth + 1, true)?;
    Ok((convert(alloc, to, start, a)?, rest))
}

/// An operand that begins with a name, after the name: a call, an element or a variable, and what follows.
#[cycle(expression)]
fn named<'a>(
    alloc: Global,
    first: &Token,
    tokens: &'a [Token],
    depth: u32,
) -> Result<(Operand, &'a [Token]), Stop>
    requires { depth ≤ most_depth }
    ensures reads { Finds (parsed (behind_name depth first.now.at first.now.text) tokens.now) (λ x. read (operand_value x.0) x.1.now) result }
    ensures within { IfOk result (λ x. length x.1.now ≤ length tokens.now) }
{
    let text = first.text.clone()?;
    if let Some(behind) = skip(tokens, TokenKind::Punctuator, "(") {
        let (list, rest) = arguments(alloc, behind, depth)?;
        primary(alloc, first.at, ExprNode::Call(text, list), rest, depth)
    } else if let Some(behind) = skip(tokens, TokenKind::Punctuator, "[") {
        let (index, rest) = assignment(alloc, behind, depth + 1)?;
        let rest = take(rest, TokenKind::Punctuator, "]", depth)?;
        primary(
            alloc,
            first.at,
            ExprNode::Element(text, index.expr),
            rest,
            depth,
        )
    } else {
        primary(alloc, first.at, ExprNode::Variable(text), tokens, depth)
    }
}

/// The arguments of a call up to its closing parenthesis (6.5.2.2).
#[cycle(expression)]
fn arguments<'a>(
    alloc: Global,
    tokens: &'a [Token],
    depth: u32,
) -> Result<(List<Expr>, &'a [Token]), Stop>
    requires { depth ≤ most_depth }
    ensures reads { Finds (parsed (arguments depth) tokens.now) (λ x. read (listed x.0) x.1.now) result }
    ensures within { IfOk result (λ x. length x.1.now < length tokens.now) }
{
    let mut list = Vec::new(alloc);
    if let Some(rest) = skip(tokens, TokenKind::Punctuator, ")") {
        return Ok((List::of(list), rest));
    }
    let (first, rest) = assignment(alloc, tokens, depth + 1)?;
    push(&mut list, first)?;
    let (list, rest) = further(alloc, list, rest, depth + 1)?;
    let rest = take(rest, TokenKind::Punctuator, ")", depth)?;
    Ok((list, rest))
}

/// Arguments with further ones after them, each after a comma.
#[cycle(expression)]
pub fn further<'a>(
    alloc: Global,
    list: Vec<Expr>,
    tokens: &'a [Token],
    depth: u32,
) -> Result<(List<Expr>, &'a [Token]), Stop>
    requires { depth ≤ most_depth + 1 }
    ensures reads { Finds (reads (Further depth list.items) tokens.now) (λ x. read (listed x.0) x.1.now) result }
    ensures within { IfOk result (λ x. length x.1.now ≤ length tokens.now) }
{
    let mut list = list;
    let mut rest = tokens;
    while let Some(behind) = skip(rest, TokenKind::Punctuator, ",") {
        shallow(rest, depth)?;
        let (argument, behind) = assignment(alloc, behind, depth)?;
        push(&mut list, argument)?;
        rest = behind;
    }
    Ok((List::of(list), rest))
}
