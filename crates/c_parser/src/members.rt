ghost use Rattle.std.specs.Prelude.{◌<◌, ◌≤◌, ◌++◌, length, IfOk, List, ◌≡◌, ◌∷◌, [], OnOk};
ghost use Rattle.c_tree.specs.declared.def.Binding.{Binding};
ghost use Rattle.c_parser.specs.TextPlans.{TextPlan, text_parsed, FindsText};
ghost use Rattle.c_parser.specs.Parts.{names_then, member_line_then, members_then};

use crate::ahead::type_ahead;
use crate::declaration::star;
use crate::push::push;
use c_expr_parser::parts::{Stop, name, shallow, skip, take, type_name};
use c_lexer::{Token, TokenKind};
use c_tree::{Binding, CType, Name};
use dsu_io::List;
use std::alloc::{AllocError, Global};

/// The members of a struct (6.7.2.1): one declaration or more.
pub fn members<'a>(
    alloc: Global,
    tokens: &'a [Token],
    depth: u32,
) -> Result<(List<Binding>, &'a [Token]), Stop>
    ensures reads { (k : List Binding → TextPlan) → FindsText (text_parsed (members_then depth k) tokens.now) (λ x. text_parsed (k x.0) x.1.now) result }
    ensures within { IfOk result (λ x. length x.1.now < length tokens.now) }
{
    let (first, behind) = member_line(alloc, Vec::new(alloc), tokens, depth)?;
    let mut list = first;
    let mut rest = behind;
    while type_ahead(rest) {
        let (longer, behind) = member_line(alloc, list, rest, depth)?;
        list = longer;
        rest = behind;
    }
    Ok((List::of(list), rest))
}

/// One declaration of members, added to those before.
fn member_line<'a>(
    alloc: Global,
    before: Vec<Binding>,
    tokens: &'a [Token],
    depth: u32,
) -> Result<(Vec<Binding>, &'a [Token]), Stop>
    ensures reads { (k : List Binding → TextPlan) → FindsText (text_parsed (member_line_then depth (λ bs. k (before.items ++ bs))) tokens.now) (λ x. text_parsed (k x.0.items) x.1.now) result }
    ensures within { IfOk result (λ x. length x.1.now < length tokens.now) }
{
    let (declared, rest) = type_name(tokens, depth)?;
    member_names(alloc, before, &declared, rest, depth)
}

/// The members that a type declares, up to the semicolon, added to those before.
fn member_names<'a>(
    alloc: Global,
    before: Vec<Binding>,
    declared: &CType,
    tokens: &'a [Token],
    depth: u32,
) -> Result<(Vec<Binding>, &'a [Token]), Stop>
    ensures reads { (k : List Binding → TextPlan) → FindsText (text_parsed (names_then depth declared.now (λ bs. k (before.items ++ bs))) tokens.now) (λ x. text_parsed (k x.0.items) x.1.now) result }
    ensures within { IfOk result (λ x. length x.1.now < length tokens.now) }
{
    let (first, after_first) = name(tokens, depth)?;
    let mut list = before;
    push_member(&mut list, declared, first)?;
    let mut rest = after_first;
    while let Some(after_comma) = skip(rest, TokenKind::Punctuator, ",") {
        shallow(rest, depth)?;
        let after_star = star(declared, after_comma, depth)?;
        let (next, after_next) = name(after_star, depth)?;
        push_member(&mut list, declared, next)?;
        rest = after_next;
    }
    let rest = take(rest, TokenKind::Punctuator, ";", depth)?;
    Ok((list, rest))
}

/// Adds a member of a type and a name to a list.
fn push_member(list: &mut Vec<Binding>, declared: &CType, member: Name) -> Result<(), AllocError>
    ensures { OnOk result (list.new.items ≡ list.old.items ++ record { declared = declared.now; name = member } ∷ []) }
{
    let declared = declared.copy()?;
    push(
        list,
        Binding {
            declared,
            name: member,
        },
    )
}
