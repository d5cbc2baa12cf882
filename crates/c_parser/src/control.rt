ghost use Rattle.std.specs.Prelude.{◌<◌, ◌≤◌, ◌+◌, suc, length, IfOk};
ghost use Rattle.c_expr_parser.specs.Readings.{most_depth};
ghost use Rattle.c_parser.specs.TextPlans.{Found, TextPlan, Want, First, Statement, Else, statement, statements, found, if_statement, while_statement, do_statement, for_statement, text_parsed, text_reads, FindsText};
ghost use Rattle.c_parser.specs.Parts.{else_found};

use crate::declaration::declaration;
use crate::node::{do_made, for_made, if_made, while_made};
use crate::push::push;
use crate::simple::{evaluate, optional, simple, test};
use crate::statement::statement;
use c_expr_parser::parts::{Stop, begins_type, is, shallow, skip, take, type_name};
use c_lexer::{Token, TokenKind};
use c_tree::Stmt;
use dsu_io::{Boxed, List};
use std::alloc::Global;

/// A statement a level deeper, on the heap.
#[cycle(statement)]
fn inner<'a>(
    alloc: Global,
    tokens: &'a [Token],
    depth: u32,
) -> Result<(Boxed<Stmt>, &'a [Token]), Stop>
    requires { depth ≤ most_depth }
    ensures reads { FindsText (text_reads (Statement (suc depth)) tokens.now) (λ x. found (statement x.0) x.1.now) result }
    ensures within { IfOk result (λ x. length x.1.now < length tokens.now) }
{
    let (body, rest) = statement(alloc, tokens, depth + 1)?;
    let body = Boxed::of(alloc, body)?;
    Ok((body, rest))
}

/// `else` and its statement, or nothing.
#[cycle(statement)]
fn otherwise<'a>(
    alloc: Global,
    tokens: &'a [Token],
    depth: u32,
) -> Result<(Option<Boxed<Stmt>>, &'a [Token]), Stop>
    requires { depth ≤ most_depth }
    ensures reads { (k : Found → TextPlan) → FindsText (text_parsed (Want (Else depth) k) tokens.now) (λ x. text_parsed (k (else_found x.0)) x.1.now) result }
    ensures within { IfOk result (λ x. length x.1.now ≤ length tokens.now) }
{
    let Some(behind) = skip(tokens, TokenKind::Keyword, "else") else {
        return Ok((None, tokens));
    };
    let (body, rest) = inner(alloc, behind, depth)?;
    Ok((Some(body), rest))
}

/// The rest of an `if` (6.8.4.1), with its `else` where one comes after the first statement.
#[cycle(statement)]
pub fn if_statement<'a>(
    alloc: Global,
    start: usize,
    tokens: &'a [Token],
    depth: u32,
) -> Result<(Stmt, &'a [Token]), Stop>
    requires { depth ≤ most_depth }
    ensures reads { FindsText (text_parsed (if_statement depth start) tokens.now) (λ x. found (statement x.0) x.1.now) result }
    ensures within { IfOk result (λ x. length x.1.now < length tokens.now) }
{
    let (condition, rest) = test(alloc, tokens, depth)?;
    let (first, rest) = inner(alloc, rest, depth)?;
    let (second, rest) = otherwise(alloc, rest, depth)?;
    Ok((if_made(start, condition, first, second), rest))
}

/// The rest of a `while` (6.8.5.1).
#[cycle(statement)]
pub fn while_statement<'a>(
    alloc: Global,
    start: usize,
    tokens: &'a [Token],
    depth: u32,
) -> Result<(Stmt, &'a [Token]), Stop>
    requires { depth ≤ most_depth }
    ensures reads { FindsText (text_parsed (while_statement depth start) tokens.now) (λ x. found (statement x.0) x.1.now) result }
    ensures within { IfOk result (λ x. length x.1.now < length tokens.now) }
{
    let (condition, rest) = test(alloc, tokens, depth)?;
    let (body, rest) = inner(alloc, rest, depth)?;
    Ok((while_made(start, condition, body), rest))
}

/// The rest of a `do` (6.8.5.2).
#[cycle(statement)]
pub fn do_statement<'a>(
    alloc: Global,
    start: usize,
    tokens: &'a [Token],
    depth: u32,
) -> Result<(Stmt, &'a [Token]), Stop>
    requires { depth ≤ most_depth }
    ensures reads { FindsText (text_parsed (do_statement depth start) tokens.now) (λ x. found (statement x.0) x.1.now) result }
    ensures within { IfOk result (λ x. length x.1.now < length tokens.now) }
{
    let (body, rest) = inner(alloc, tokens, depth)?;
    let rest = take(rest, TokenKind::Keyword, "while", depth)?;
    let (condition, rest) = test(alloc, rest, depth)?;
    simple(start, do_made(body, condition), rest, depth)
}

/// The rest of a `for` (6.8.5.3).
#[cycle(statement)]
pub fn for_statement<'a>(
    alloc: Global,
    start: usize,
    tokens: &'a [Token],
    depth: u32,
) -> Result<(Stmt, &'a [Token]), Stop>
    requires { depth ≤ most_depth }
    ensures reads { FindsText (text_parsed (for_statement depth start) tokens.now) (λ x. found (statement x.0) x.1.now) result }
    ensures within { IfOk result (λ x. length x.1.now < length tokens.now) }
{
    let rest = take(tokens, TokenKind::Punctuator, "(", depth)?;
    let (before, rest) = first_part(alloc, rest, depth + 1)?;
    let (condition, rest) = optional(alloc, rest, depth + 1, ";", depth + 1)?;
    let (step, rest) = optional(alloc, rest, depth + 1, ")", depth)?;
    let (body, rest) = inner(alloc, rest, depth)?;
    Ok((for_made(start, before, condition, step, body), rest))
}

/// The first part of a `for` with its semicolon: a declaration, an expression or nothing.
fn first_part<'a>(
    alloc: Global,
    tokens: &'a [Token],
    depth: u32,
) -> Result<(List<Stmt>, &'a [Token]), Stop>
    requires { depth ≤ most_depth + 1 }
    ensures reads { FindsText (text_reads (First depth) tokens.now) (λ x. found (statements x.0) x.1.now) result }
    ensures within { IfOk result (λ x. length x.1.now < length tokens.now) }
{
    let Some((first, rest)) = tokens.split_first() else {
        return Err(Stop::Stuck(0));
    };
    if begins_type(first) {
        let (declared, rest) = type_name(tokens, depth)?;
        let (list, rest) = declaration(alloc, Vec::new(alloc), first.at, &declared, rest, depth)?;
        return Ok((List::of(list), rest));
    }
    let mut list = Vec::new(alloc);
    if is(first, TokenKind::Punctuator, ";") {
        shallow(tokens, depth)?;
        return Ok((List::of(list), rest));
    }
    let (statement, rest) = evaluate(alloc, first.at, tokens, depth)?;
    push(&mut list, statement)?;
    Ok((List::of(list), rest))
}
