ghost use Rattle.std.specs.Prelude.{◌≡◌, ◌<◌, ◌≤◌, ◌++◌, length, IfOk, MatchResult, List};
ghost use Rattle.c_tree.specs.declared.expr.Expr.{Expr};
ghost use Rattle.c_tree.specs.declared.def.Def.{Def};
ghost use Rattle.c_parser.specs.TextPlans.{TextPlan, Want, ArrayLength, ArrayInitial, Global as GlobalWanted, numbered, listed, global, made, found, text_parsed, text_reads, TextStops, FindsText};
ghost use Rattle.c_parser.specs.Parts.{values_then, globals_plan};

use crate::declaration::star;
use crate::push::push;
use c_expr_parser::parts::{MOST_DEPTH, Stop, conditional, constant, is_kind, name, skip, take};
use c_lexer::{Token, TokenKind};
use c_tree::{Array, CType, Declaration, Def, DefKind, Expr, Length, Name};
use dsu_io::List;
use std::alloc::Global;

/// The globals that a type declares (6.7), after the first one's name, up to the semicolon, added to the definitions
/// before as of one place.
pub fn globals<'a>(
    alloc: Global,
    before: Vec<Def>,
    start: usize,
    declared: &CType,
    first: Name,
    tokens: &'a [Token],
) -> Result<(Vec<Def>, &'a [Token]), Stop>
    ensures reads { let m = text_parsed (globals_plan start declared.now first) tokens.now in
        MatchResult result (λ x. (ds : List Def) × (m ≡ found (made (λ n. ds)) x.1.now) × (x.0.items ≡ before.items ++ ds))
        (λ stop. TextStops stop m) }
    ensures within { IfOk result (λ x. length x.1.now < length tokens.now) }
{
    let (kind, behind) = global(alloc, declared, first, tokens)?;
    let mut list = before;
    push(&mut list, Def { place: start, kind })?;
    let mut rest = behind;
    while let Some(behind) = skip(rest, TokenKind::Punctuator, ",") {
        let behind = star(declared, behind, 0)?;
        let (next, behind) = name(behind, 0)?;
        let (kind, behind) = global(alloc, declared, next, behind)?;
        push(&mut list, Def { place: start, kind })?;
        rest = behind;
    }
    let rest = take(rest, TokenKind::Punctuator, ";", 0)?;
    Ok((list, rest))
}

/// A global of a type after its name: an initialiser, an array's length, or nothing (6.7.6.2, 6.7.9).
fn global<'a>(
    alloc: Global,
    declared: &CType,
    global_name: Name,
    tokens: &'a [Token],
) -> Result<(DefKind, &'a [Token]), Stop>
    ensures reads { FindsText (text_reads (GlobalWanted declared.now global_name) tokens.now) (λ x. found (global x.0) x.1.now) result }
    ensures within { IfOk result (λ x. length x.1.now ≤ length tokens.now) }
{
    if let Some(behind) = skip(tokens, TokenKind::Punctuator, "=") {
        let (value, rest) = conditional(alloc, behind, 0)?;
        let declared = declared.copy()?;
        let initial = Some(value.expr.into_inner());
        return Ok((plain(declared, global_name, initial), rest));
    }
    let Some(behind) = skip(tokens, TokenKind::Punctuator, "[") else {
        return Ok((plain(declared.copy()?, global_name, None), tokens));
    };
    let (length, rest) = array_length(behind, 1)?;
    let rest = take(rest, TokenKind::Punctuator, "]", 0)?;
    let (initial, rest) = array_initial(alloc, rest)?;
    let array = Array {
        element: declared.copy()?,
        name: global_name,
        length,
        initial,
    };
    Ok((DefKind::Array(array), rest))
}

/// A global that is no array.
fn plain(declared: CType, name: Name, initial: Option<Expr>) -> DefKind
    ensures { result ≡ DefKind.Global (record { declared = declared; name = name; initial = initial }) }
{
    DefKind::Global(Declaration {
        declared,
        name,
        initial,
    })
}

/// A number that an array's length is.
fn array_length(tokens: &[Token], depth: u32) -> Result<(Length, &[Token]), Stop>
    ensures reads { FindsText (text_reads (ArrayLength depth) tokens.now) (λ x. found (numbered x.0) x.1.now) result }
    ensures within { IfOk result (λ x. length x.1.now < length tokens.now) }
{
    let Some((token, rest)) = tokens.split_first() else {
        return Err(Stop::Stuck(0));
    };
    if !is_kind(token, TokenKind::Number) {
        return Err(Stop::Stuck(tokens.len()));
    }
    let Some(value) = constant(token.text.as_str()) else {
        return Err(Stop::Stuck(tokens.len()));
    };
    if depth > MOST_DEPTH {
        return Err(Stop::Deep(tokens.len()));
    }
    let length = Length {
        place: token.at,
        value,
    };
    Ok((length, rest))
}

/// An array's initialisers after `=`, or nothing.
fn array_initial<'a>(
    alloc: Global,
    tokens: &'a [Token],
) -> Result<(Option<List<Expr>>, &'a [Token]), Stop>
    ensures reads { FindsText (text_reads ArrayInitial tokens.now) (λ x. found (listed x.0) x.1.now) result }
    ensures within { IfOk result (λ x. length x.1.now ≤ length tokens.now) }
{
    let Some(behind) = skip(tokens, TokenKind::Punctuator, "=") else {
        return Ok((None, tokens));
    };
    let (list, rest) = initialisers(alloc, behind)?;
    Ok((Some(list), rest))
}

/// An array's initialisers in braces, with commas between and maybe one after the last.
fn initialisers<'a>(alloc: Global, tokens: &'a [Token]) -> Result<(List<Expr>, &'a [Token]), Stop>
    ensures reads { (k : List Expr → TextPlan) → FindsText (text_parsed (values_then k) tokens.now) (λ x. text_parsed (k x.0) x.1.now) result }
    ensures within { IfOk result (λ x. length x.1.now < length tokens.now) }
{
    let rest = take(tokens, TokenKind::Punctuator, "{", 0)?;
    let (first, behind) = conditional(alloc, rest, 1)?;
    let mut list = Vec::new(alloc);
    push(&mut list, first.expr.into_inner())?;
    let mut rest = behind;
    while let Some(behind) = skip(rest, TokenKind::Punctuator, ",") {
        if let Some(end) = skip(behind, TokenKind::Punctuator, "}") {
            return Ok((List::of(list), end));
        }
        let (next, behind) = conditional(alloc, behind, 1)?;
        push(&mut list, next.expr.into_inner())?;
        rest = behind;
    }
    let rest = take(rest, TokenKind::Punctuator, "}", 0)?;
    Ok((List::of(list), rest))
}
