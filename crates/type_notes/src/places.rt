//! The definition with a place.
use c_tree::{CType, Def, DefKind, Expr, Function, Name, Prototype};

/// What a definition has at a place.
#[derive(Clone, Copy)]
pub(crate) enum Spot<'a> {
    /// `struct T;`
    Forward(&'a Name),
    Prototype(&'a Prototype),
    /// An initialiser of a global, or of an element of one, with its type.
    Initialiser(&'a Expr, &'a CType),
    Function(&'a Function),
}

/// What the last of some definitions that begins up to a place has there.
pub(crate) fn spot_at(definitions: &[Def], at: usize) -> Option<Spot<'_>> {
    let mut found = None;
    for one in definitions {
        if let Some(spot) = spot_in(one, at) {
            found = Some(spot);
        }
    }
    found
}

/// What a definition has at a place, if it begins up to it. The globals of one declaration begin at one place, so of a global
/// its initialisers decide.
fn spot_in(one: &Def, at: usize) -> Option<Spot<'_>> {
    match &one.kind {
        DefKind::Global(variable) => {
            let initial = variable.initial.as_ref()?;
            begun(initial, &variable.declared, at)
        }
        DefKind::Array(array) => {
            let initial = array.initial.as_ref()?;
            last_begun(initial.as_slice(), &array.element, at)
        }
        _ => {
            if one.place > at {
                return None;
            }
            whole_in(&one.kind)
        }
    }
}

/// An initialiser, if it begins up to a place.
fn begun<'a>(initial: &'a Expr, declared: &'a CType, at: usize) -> Option<Spot<'a>> {
    if initial.place > at {
        return None;
    }
    Some(Spot::Initialiser(initial, declared))
}

/// The last of some initialisers that begins up to a place.
fn last_begun<'a>(initial: &'a [Expr], element: &'a CType, at: usize) -> Option<Spot<'a>> {
    let mut found = None;
    for one in initial {
        if let Some(spot) = begun(one, element, at) {
            found = Some(spot);
        }
    }
    found
}

/// What a definition that is no global has.
fn whole_in(kind: &DefKind) -> Option<Spot<'_>> {
    match kind {
        DefKind::Forward(tag) => Some(Spot::Forward(tag)),
        DefKind::Prototype(prototype) => Some(Spot::Prototype(prototype)),
        DefKind::Function(function) => Some(Spot::Function(function)),
        _ => None,
    }
}
