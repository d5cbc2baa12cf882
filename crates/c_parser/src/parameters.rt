ghost use Rattle.std.specs.Prelude.{◌≤◌, length, IfOk};
ghost use Rattle.c_parser.specs.TextPlans.{ParameterList, parameters, found, text_parsed, text_reads, FindsText};
ghost use Rattle.c_parser.specs.Parts.{named_plan, unnamed_plan};

use crate::ahead::{name_ahead, type_ahead};
use crate::push::push;
use c_expr_parser::parts::{Stop, name, shallow, skip, type_name};
use c_lexer::{Token, TokenKind};
use c_tree::{Binding, CType, Parameters};
use dsu_io::List;
use std::alloc::Global;

/// What stands between a function's parentheses (6.7.6.3): parameters with names, types alone, `void` or nothing.
pub fn parameters<'a>(
    alloc: Global,
    tokens: &'a [Token],
    depth: u32,
) -> Result<(Parameters, &'a [Token]), Stop>
    ensures reads { FindsText (text_reads (ParameterList depth) tokens.now) (λ x. found (parameters x.0) x.1.now) result }
    ensures within { IfOk result (λ x. length x.1.now ≤ length tokens.now) }
{
    if let Some(rest) = skip(tokens, TokenKind::Keyword, "void") {
        shallow(tokens, depth)?;
        return Ok((Parameters::Named(List::of(Vec::new(alloc))), rest));
    }
    if !type_ahead(tokens) {
        return Ok((Parameters::Named(List::of(Vec::new(alloc))), tokens));
    }
    let (declared, rest) = type_name(tokens, depth)?;
    if name_ahead(rest) {
        named(alloc, declared, rest, depth)
    } else {
        unnamed(alloc, declared, rest, depth)
    }
}

/// Parameters with names, after the first one's type.
fn named<'a>(
    alloc: Global,
    declared: CType,
    tokens: &'a [Token],
    depth: u32,
) -> Result<(Parameters, &'a [Token]), Stop>
    ensures reads { FindsText (text_parsed (named_plan depth declared) tokens.now) (λ x. found (parameters x.0) x.1.now) result }
    ensures within { IfOk result (λ x. length x.1.now ≤ length tokens.now) }
{
    let (first, behind) = name(tokens, depth)?;
    let mut list = Vec::new(alloc);
    push(
        &mut list,
        Binding {
            declared,
            name: first,
        },
    )?;
    let mut rest = behind;
    while let Some(behind) = skip(rest, TokenKind::Punctuator, ",") {
        shallow(rest, depth)?;
        let (declared, behind) = type_name(behind, depth)?;
        let (next, behind) = name(behind, depth)?;
        push(
            &mut list,
            Binding {
                declared,
                name: next,
            },
        )?;
        rest = behind;
    }
    Ok((Parameters::Named(List::of(list)), rest))
}

/// Parameters without names, after the first type.
fn unnamed<'a>(
    alloc: Global,
    declared: CType,
    tokens: &'a [Token],
    depth: u32,
) -> Result<(Parameters, &'a [Token]), Stop>
    ensures reads { FindsText (text_parsed (unnamed_plan depth declared) tokens.now) (λ x. found (parameters x.0) x.1.now) result }
    ensures within { IfOk result (λ x. length x.1.now ≤ length tokens.now) }
{
    let mut list = Vec::new(alloc);
    push(&mut list, declared)?;
    let mut rest = tokens;
    while let Some(behind) = skip(rest, TokenKind::Punctuator, ",") {
        shallow(rest, depth)?;
        let (next, behind) = type_name(behind, depth)?;
        push(&mut list, next)?;
        rest = behind;
    }
    Ok((Parameters::Unnamed(List::of(list)), rest))
}
