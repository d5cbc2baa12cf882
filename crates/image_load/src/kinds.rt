//! The words of a function's parameters and of its value.
ghost use Rattle.std.specs.Prelude.{◌≡◌, IfOk, Some, map};
ghost use Rattle.c_tree.specs.Bare.{bare_binding, bare_kind, bare_type};
ghost use Rattle.c_semantics.specs.Texts.{parameters_of, result_type};
ghost use Rattle.name_resolution.specs.Known.{known_of};
ghost use Rattle.code_kinds.specs.WordKinds.{word_kind as kind_of_word};
ghost use Rattle.formed_code.specs.FormedLaws.{kinds_of};

use crate::fields::definition;
use c_definitions::Known;
use c_tree::{Binding, CType, DefKind};
use code_kinds::WordKind;
use std::alloc::{AllocError, Global};

/// The kinds of the words of a function's parameters, the last one first, as a frame numbers them.
pub(crate) fn parameter_kinds(
    alloc: Global,
    known: &Known,
    name: &str,
) -> Result<Vec<WordKind>, AllocError>
    ensures { IfOk result (λ kinds. kinds.items ≡ kinds_of (parameters_of (known_of known.now name.now))) }
{
    let parameters = parameters(known, name);
    let mut kinds = Vec::with_capacity(alloc, parameters.len())?;
    let mut left = parameters.len();
    while left > 0 {
        left -= 1;
        kinds.push(word_kind(&parameters[left].declared))?;
    }
    Ok(kinds)
}

/// The parameters of a function; other names have none.
fn parameters<'a>(known: &Known<'a>, name: &str) -> &'a [Binding]
    ensures { map bare_binding result.now ≡ parameters_of (known_of known.now name.now) }
{
    match definition(known, name) {
        Some(found) => own_parameters(&found.kind),
        None => &[],
    }
}

/// The parameters of a function; other definitions have none.
fn own_parameters(kind: &DefKind) -> &[Binding]
    ensures { map bare_binding result.now ≡ parameters_of (Some (bare_kind kind.now)) }
{
    match kind {
        DefKind::Function(function) => function.parameters.as_slice(),
        _ => &[],
    }
}

/// The kind of the word of a function's value; where it has none it is that of `int`.
pub(crate) fn result_kind(known: &Known, name: &str) -> WordKind
    ensures { result ≡ kind_of_word (result_type (known_of known.now name.now)) }
{
    let Some(found) = definition(known, name) else {
        return WordKind::Integer;
    };
    let DefKind::Function(function) = &found.kind else {
        return WordKind::Integer;
    };
    match &function.result {
        Some(declared) => word_kind(declared),
        None => WordKind::Integer,
    }
}

/// The kind of the word of a type's values.
fn word_kind(declared: &CType) -> WordKind
    ensures { result ≡ kind_of_word (bare_type declared.now) }
{
    match declared {
        CType::Integer(_) => WordKind::Integer,
        CType::Handle(_) => WordKind::Handle,
        CType::Thread => WordKind::Thread,
    }
}
