//! Initialisers that changed. A global that is there already has its value, so they have no effect.
use c_definitions::Known;
use c_tree::{Array, Declaration, Def, DefKind, Expr, same_expr, same_type};
use c_types::Typed;
use dsu_io::{List, Text};
use offer_drafts::Draft;

/// Says which initialisers changed of globals whose types didn't.
pub(crate) fn say_initials(draft: &mut Draft, old: &Typed, new: &Typed) {
    match Known::of(draft.alloc(), old.program().definitions.as_slice()) {
        Ok(known) => say_changed(draft, &known, new.program().definitions.as_slice()),
        Err(_) => draft.cut(),
    }
}

/// The same of the definitions of the newer text.
fn say_changed(draft: &mut Draft, old: &Known<'_>, new: &[Def]) {
    for one in new {
        if let Some(name) = changed_initial(old, one) {
            draft.say("the initialiser of ");
            draft.say(name);
            draft.say(" changed, which has no effect");
            draft.end();
        }
    }
}

/// The name of a definition, if it is a global of which only the initialiser changed.
fn changed_initial<'a>(old: &Known<'_>, new: &'a Def) -> Option<&'a str> {
    match &new.kind {
        DefKind::Global(variable) => {
            let before = variable_in(old, &variable.name.text)?;
            name_if(is_other_value(before, variable), &variable.name.text)
        }
        DefKind::Array(array) => {
            let before = array_in(old, &array.name.text)?;
            name_if(has_other_values(before, array), &array.name.text)
        }
        _ => None,
    }
}

/// A name, if something holds.
fn name_if(holds: bool, name: &Text) -> Option<&str> {
    if holds { Some(name.as_str()) } else { None }
}

/// The variable of a name.
fn variable_in<'a>(known: &Known<'a>, name: &Text) -> Option<&'a Declaration> {
    match &known.definition_of(name.as_str())?.kind {
        DefKind::Global(variable) => Some(variable),
        _ => None,
    }
}

/// The array of a name.
fn array_in<'a>(known: &Known<'a>, name: &Text) -> Option<&'a Array> {
    match &known.definition_of(name.as_str())?.kind {
        DefKind::Array(array) => Some(array),
        _ => None,
    }
}

/// Whether two variables have one type and other initialisers.
fn is_other_value(old: &Declaration, new: &Declaration) -> bool {
    same_type(&old.declared, &new.declared) && !is_same_if(&old.initial, &new.initial)
}

/// Whether two initialisers are the same, or neither is there.
fn is_same_if(old: &Option<Expr>, new: &Option<Expr>) -> bool {
    match (old, new) {
        (Some(old), Some(new)) => same_expr(old, new),
        (None, None) => true,
        _ => false,
    }
}

/// Whether two arrays have one type and other initialisers.
fn has_other_values(old: &Array, new: &Array) -> bool {
    same_type(&old.element, &new.element)
        && old.length.value.value() == new.length.value.value()
        && !are_same_if(&old.initial, &new.initial)
}

/// Whether two lists of initialisers are the same, or neither is there.
fn are_same_if(old: &Option<List<Expr>>, new: &Option<List<Expr>>) -> bool {
    match (old, new) {
        (Some(old), Some(new)) => are_same(old.as_slice(), new.as_slice()),
        (None, None) => true,
        _ => false,
    }
}

/// Whether two lists of initialisers are the same.
fn are_same(old: &[Expr], new: &[Expr]) -> bool {
    if old.len() != new.len() {
        return false;
    }
    for index in 0..old.len().min(new.len()) {
        if !same_expr(&old[index], &new[index]) {
            return false;
        }
    }
    true
}
