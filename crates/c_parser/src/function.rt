ghost use Rattle.std.specs.Prelude.{◌≡◌, ◌∷◌, ◌<◌, ◌≤◌, ◌+◌, ℕ, [], length, IfOk, IfSome};
ghost use Rattle.c_parser.specs.TextPlans.{Body, prototype_made, text_parsed, text_reads};
ghost use Rattle.c_parser.specs.Parts.{function_plan, Adds};

use crate::block::block;
use crate::parameters::parameters;
use c_expr_parser::parts::{Stop, skip, take};
use c_lexer::{Token, TokenKind};
use c_tree::{Binding, CType, Def, DefKind, Function, Name, Parameters, Prototype};
use dsu_io::List;
use std::alloc::Global;

/// A function after its name (6.7.6.3, 6.9.1): its parameters, and its body or the end of its prototype. All its tokens
/// are those from its result's type on.
pub fn function<'a>(
    alloc: Global,
    start: usize,
    returned: Option<CType>,
    name: Name,
    all: &[Token],
    tokens: &'a [Token],
) -> Result<(Def, &'a [Token]), Stop>
    requires { length tokens.now ≤ length all.now }
    ensures reads { Adds (text_parsed (function_plan start returned name) tokens.now) (length all.now) [] (λ x. x.0 ∷ []) (λ x. x.1.now) result }
    ensures within { IfOk result (λ x. length x.1.now < length tokens.now) }
{
    let rest = take(tokens, TokenKind::Punctuator, "(", 0)?;
    let (parameters, rest) = parameters(alloc, rest, 1)?;
    let rest = take(rest, TokenKind::Punctuator, ")", 0)?;
    match parameters {
        Parameters::Named(list) => body(alloc, start, returned, name, list, all, rest),
        Parameters::Unnamed(list) => {
            let rest = take(rest, TokenKind::Punctuator, ";", 0)?;
            let parameters = Parameters::Unnamed(list);
            Ok((prototype(start, returned, name, parameters), rest))
        }
    }
}

/// A function's body, or the end of its prototype, after parameters with names.
fn body<'a>(
    alloc: Global,
    start: usize,
    returned: Option<CType>,
    name: Name,
    parameters: List<Binding>,
    all: &[Token],
    tokens: &'a [Token],
) -> Result<(Def, &'a [Token]), Stop>
    requires { length tokens.now ≤ length all.now }
    ensures reads { Adds (text_reads (Body start returned name parameters) tokens.now) (length all.now) [] (λ x. x.0 ∷ []) (λ x. x.1.now) result }
    ensures within { IfOk result (λ x. length x.1.now < length tokens.now) }
{
    let Some(inside) = skip(tokens, TokenKind::Punctuator, "{") else {
        let rest = take(tokens, TokenKind::Punctuator, ";", 0)?;
        let parameters = Parameters::Named(parameters);
        return Ok((prototype(start, returned, name, parameters), rest));
    };
    let (block, rest) = block(alloc, inside, 0)?;
    let Some(count) = taken(all, rest) else {
        return Err(Stop::Memory);
    };
    let function = Function {
        result: returned,
        name,
        parameters,
        body: block.body,
        end: block.end,
        tokens: count,
    };
    let kind = DefKind::Function(function);
    Ok((Def { place: start, kind }, rest))
}

/// How many of some tokens come before the rest, where that is a `u32`.
fn taken(all: &[Token], rest: &[Token]) -> Option<u32>
    requires { length rest.now ≤ length all.now }
    ensures { IfSome result (λ count. count + length rest.now ≡ length all.now) }
{
    u32::try_from(all.len() - rest.len()).ok()
}

/// The definition that a prototype is.
fn prototype(start: usize, returned: Option<CType>, name: Name, parameters: Parameters) -> Def
    ensures { (n : ℕ) → result ∷ [] ≡ prototype_made start returned name parameters n }
{
    Def {
        place: start,
        kind: DefKind::Prototype(Prototype {
            result: returned,
            name,
            parameters,
        }),
    }
}
