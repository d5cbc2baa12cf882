ghost use Rattle.std.specs.Prelude.{◌∷◌, ◌<◌, ◌≤◌, ◌+◌, [], length, IfOk, List};
ghost use Rattle.c_tree.specs.declared.def.FieldValue.{FieldValue};
ghost use Rattle.c_expr_parser.specs.Readings.{most_depth};
ghost use Rattle.c_parser.specs.TextPlans.{TextPlan, Transformed, made, found, text_parsed, text_reads, FindsText};
ghost use Rattle.c_parser.specs.Parts.{global_transformer_plan, updates_then, update_then};

use crate::ahead::name_ahead;
use crate::push::push;
use c_expr_parser::parts::{Stop, conditional, name, skip, take};
use c_lexer::{Token, TokenKind};
use c_tree::{Def, DefKind, FieldValue, StructTransform};
use dsu_io::List;
use std::alloc::Global;

/// The rest of a transformer of a struct or a global, which begins at a place with `dsu_transform`.
pub fn transformer<'a>(
    alloc: Global,
    start: usize,
    tokens: &'a [Token],
) -> Result<(Def, &'a [Token]), Stop>
    ensures reads { FindsText (text_reads (Transformed start) tokens.now) (λ x. found (made (λ n. x.0 ∷ [])) x.1.now) result }
    ensures within { IfOk result (λ x. length x.1.now < length tokens.now) }
{
    let Some(rest) = skip(tokens, TokenKind::Keyword, "struct") else {
        return global_transformer(alloc, start, tokens);
    };
    let (tag, rest) = name(rest, 0)?;
    let rest = take(rest, TokenKind::Punctuator, "{", 0)?;
    let (values, rest) = updates(alloc, rest, 1)?;
    let rest = take(rest, TokenKind::Punctuator, "}", 0)?;
    let transform = StructTransform { name: tag, values };
    let kind = DefKind::TransformStruct(transform);
    Ok((Def { place: start, kind }, rest))
}

/// A global's transformer: its name, `=` and its new value.
fn global_transformer<'a>(
    alloc: Global,
    start: usize,
    tokens: &'a [Token],
) -> Result<(Def, &'a [Token]), Stop>
    ensures reads { FindsText (text_parsed (global_transformer_plan start) tokens.now) (λ x. found (made (λ n. x.0 ∷ [])) x.1.now) result }
    ensures within { IfOk result (λ x. length x.1.now < length tokens.now) }
{
    let (global, rest) = name(tokens, 0)?;
    let rest = take(rest, TokenKind::Punctuator, "=", 0)?;
    let (value, rest) = conditional(alloc, rest, 0)?;
    let rest = take(rest, TokenKind::Punctuator, ";", 0)?;
    let kind = DefKind::TransformGlobal(global, value.expr.into_inner());
    Ok((Def { place: start, kind }, rest))
}

/// The updates of fields in a struct's transformer.
fn updates<'a>(
    alloc: Global,
    tokens: &'a [Token],
    depth: u32,
) -> Result<(List<FieldValue>, &'a [Token]), Stop>
    requires { depth ≤ most_depth + 1 }
    ensures reads { (k : List FieldValue → TextPlan) → FindsText (text_parsed (updates_then depth k) tokens.now) (λ x. text_parsed (k x.0) x.1.now) result }
    ensures within { IfOk result (λ x. length x.1.now ≤ length tokens.now) }
{
    let mut list = Vec::new(alloc);
    let mut rest = tokens;
    while name_ahead(rest) {
        let (update, behind) = update(alloc, rest, depth)?;
        push(&mut list, update)?;
        rest = behind;
    }
    Ok((List::of(list), rest))
}

/// The update of a field: its name, `=` and its new value.
fn update<'a>(
    alloc: Global,
    tokens: &'a [Token],
    depth: u32,
) -> Result<(FieldValue, &'a [Token]), Stop>
    requires { depth ≤ most_depth + 1 }
    ensures reads { (k : FieldValue → TextPlan) → FindsText (text_parsed (update_then depth k) tokens.now) (λ x. text_parsed (k x.0) x.1.now) result }
    ensures within { IfOk result (λ x. length x.1.now < length tokens.now) }
{
    let (field, rest) = name(tokens, depth)?;
    let rest = take(rest, TokenKind::Punctuator, "=", depth)?;
    let (value, rest) = conditional(alloc, rest, depth)?;
    let rest = take(rest, TokenKind::Punctuator, ";", depth)?;
    let value = value.expr.into_inner();
    Ok((FieldValue { field, value }, rest))
}
