ghost use Rattle.std.specs.Prelude.{◌≡◌, ◌∷◌, ◌++◌, ◌<◌, ◌≤◌, [], length, IfOk};
ghost use Rattle.c_expr_parser.specs.Definitions.{def};
ghost use Rattle.c_parser.specs.TextPlans.{Item, Declared, Tagged, typed_item, text_parsed, text_reads};
ghost use Rattle.c_parser.specs.Parts.{Adds};

use crate::ahead::is_ahead;
use crate::function::function;
use crate::global::globals;
use crate::members::members;
use crate::push::push;
use crate::transformer::transformer;
use c_expr_parser::parts::{Stop, is, name, skip, take, type_name};
use c_lexer::{Token, TokenKind};
use c_tree::{CType, Def, DefKind, Name};
use std::alloc::Global;

/// What is at the first level of a text (6.9), added to the definitions before.
pub fn item<'a>(
    alloc: Global,
    before: Vec<Def>,
    tokens: &'a [Token],
) -> Result<(Vec<Def>, &'a [Token]), Stop>
    ensures reads { Adds (text_reads Item tokens.now) (length tokens.now) before.items (λ x. x.0.items) (λ x. x.1.now) result }
    ensures within { IfOk result (λ x. length x.1.now < length tokens.now) }
{
    let Some((first, rest)) = tokens.split_first() else {
        return Err(Stop::Stuck(0));
    };
    if is(first, TokenKind::Keyword, "static") {
        return declared(alloc, before, rest);
    }
    if is(first, TokenKind::Keyword, "struct") {
        let (tag, rest) = name(rest, 0)?;
        return tagged(alloc, before, first.at, tag, tokens, rest);
    }
    if is(first, TokenKind::LibraryWord, "dsu_transform") {
        let (def, rest) = transformer(alloc, first.at, rest)?;
        let mut list = before;
        push(&mut list, def)?;
        return Ok((list, rest));
    }
    declared(alloc, before, tokens)
}

/// What may come after `static` (6.7.1): a function, a mutex or globals.
fn declared<'a>(
    alloc: Global,
    before: Vec<Def>,
    tokens: &'a [Token],
) -> Result<(Vec<Def>, &'a [Token]), Stop>
    ensures reads { Adds (text_reads Declared tokens.now) (length tokens.now) before.items (λ x. x.0.items) (λ x. x.1.now) result }
    ensures within { IfOk result (λ x. length x.1.now < length tokens.now) }
{
    let Some((first, rest)) = tokens.split_first() else {
        return Err(Stop::Stuck(0));
    };
    if is(first, TokenKind::Keyword, "void") {
        let (function_name, rest) = name(rest, 0)?;
        let (def, rest) = function(alloc, first.at, None, function_name, tokens, rest)?;
        let mut list = before;
        push(&mut list, def)?;
        return Ok((list, rest));
    }
    if is(first, TokenKind::LibraryWord, "mtx_t") {
        let (mutex, rest) = name(rest, 0)?;
        let rest = take(rest, TokenKind::Punctuator, ";", 0)?;
        let mut list = before;
        push(&mut list, def_of(first.at, DefKind::Mutex(mutex)))?;
        return Ok((list, rest));
    }
    let (declared, rest) = type_name(tokens, 0)?;
    typed(alloc, before, first.at, declared, tokens, rest)
}

/// The definition of a kind that begins at a place.
fn def_of(place: usize, kind: DefKind) -> Def
    ensures { result ≡ def place kind }
{
    Def { place, kind }
}

/// A function or globals after a type, which begins at a place. All tokens are those from the type on.
fn typed<'a>(
    alloc: Global,
    before: Vec<Def>,
    start: usize,
    declared: CType,
    all: &[Token],
    tokens: &'a [Token],
) -> Result<(Vec<Def>, &'a [Token]), Stop>
    requires { length tokens.now ≤ length all.now }
    ensures reads { Adds (text_parsed (typed_item start declared) tokens.now) (length all.now) before.items (λ x. x.0.items) (λ x. x.1.now) result }
    ensures within { IfOk result (λ x. length x.1.now < length tokens.now) }
{
    let (first, rest) = name(tokens, 0)?;
    if is_ahead(rest, TokenKind::Punctuator, "(") {
        let (def, rest) = function(alloc, start, Some(declared), first, all, rest)?;
        let mut list = before;
        push(&mut list, def)?;
        return Ok((list, rest));
    }
    globals(alloc, before, start, &declared, first, rest)
}

/// What follows `struct` and a tag, which begin at a place: members, the end of a declaration, or a handle's star. All
/// tokens are those from `struct` on.
fn tagged<'a>(
    alloc: Global,
    before: Vec<Def>,
    start: usize,
    tag: Name,
    all: &[Token],
    tokens: &'a [Token],
) -> Result<(Vec<Def>, &'a [Token]), Stop>
    requires { length tokens.now ≤ length all.now }
    ensures reads { Adds (text_reads (Tagged start tag) tokens.now) (length all.now) before.items (λ x. x.0.items) (λ x. x.1.now) result }
    ensures within { IfOk result (λ x. length x.1.now < length tokens.now) }
{
    if let Some(rest) = skip(tokens, TokenKind::Punctuator, "{") {
        let (fields, rest) = members(alloc, rest, 1)?;
        let rest = take(rest, TokenKind::Punctuator, "}", 0)?;
        let rest = take(rest, TokenKind::Punctuator, ";", 0)?;
        let mut list = before;
        push(&mut list, def_of(start, DefKind::Struct(tag, fields)))?;
        return Ok((list, rest));
    }
    if let Some(rest) = skip(tokens, TokenKind::Punctuator, ";") {
        let mut list = before;
        push(&mut list, def_of(start, DefKind::Forward(tag)))?;
        return Ok((list, rest));
    }
    let rest = take(tokens, TokenKind::Punctuator, "*", 0)?;
    typed(alloc, before, start, CType::Handle(tag), all, rest)
}
