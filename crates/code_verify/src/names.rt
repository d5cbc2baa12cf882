//! What the names are that stops use.
ghost use Rattle.std.specs.Prelude.{◌≡◌, map, option_map, is_some, IfOk};
ghost use Rattle.c_tree.specs.Bare.{bare_def, bare_binding};
ghost use Rattle.c_semantics.specs.Names.{struct_name};
ghost use Rattle.c_semantics.specs.Texts.{bound, result_type};
ghost use Rattle.resolved_tree.specs.Nodes.{word};
ghost use Rattle.name_resolution.specs.Known.{known_of};
ghost use Rattle.code_kinds.specs.WordKinds.{word_kind as kind_of_type};
ghost use Rattle.code_kinds.specs.StopKinds.{variable_kind as kind_of_variable, element_kind as kind_of_elements, fields as fields_of, field_kind as kind_of_field, is_mutex as means_mutex, parameter_kinds};
ghost use Rattle.code_verify.specs.Seen.{trees_of, look_of};

use crate::source::Source;
use crate::words::word_kind;
use c_definitions::Known;
use c_tree::{Binding, Def, DefKind};
use code_kinds::WordKind;
use name_resolution::name_of_struct;
use resolved_tree::Word;
use std::alloc::AllocError;

/// The definition of a name; a struct's is `struct` with its tag after a blank.
fn definition<'a>(known: &Known<'a>, name: &str) -> Option<&'a Def>
    ensures { option_map (λ d. bare_def d.now) result ≡ known_of known.now name.now }
{
    known.declared(name)
}

/// The kind of a global variable's word.
pub(crate) fn variable_kind(known: &Known, name: &str) -> Option<WordKind>
    ensures { result ≡ kind_of_variable (known_of known.now name.now) }
{
    let found = definition(known, name)?;
    match &found.kind {
        DefKind::Global(declaration) => Some(word_kind(&declaration.declared)),
        _ => None,
    }
}

/// The kind of an array's words.
pub(crate) fn element_kind(known: &Known, name: &str) -> Option<WordKind>
    ensures { result ≡ kind_of_elements (known_of known.now name.now) }
{
    let found = definition(known, name)?;
    match &found.kind {
        DefKind::Array(array) => Some(word_kind(&array.element)),
        _ => None,
    }
}

/// Whether a name is a mutex.
pub(crate) fn is_mutex(known: &Known, name: &str) -> bool
    ensures { result ≡ means_mutex (known_of known.now name.now) }
{
    let Some(found) = definition(known, name) else {
        return false;
    };
    matches!(&found.kind, DefKind::Mutex(_))
}

/// The fields of a struct, by its full name.
fn fields<'a>(known: &Known<'a>, name: &str) -> Option<&'a [Binding]>
    ensures { option_map (λ m. map bare_binding m.now) result ≡ fields_of (known_of known.now name.now) }
{
    let found = definition(known, name)?;
    match &found.kind {
        DefKind::Struct(_, members) => Some(members.as_slice()),
        _ => None,
    }
}

/// The kind of what a name is declared as in a list.
fn bound_kind(bindings: &[Binding], name: &str) -> Option<WordKind>
    ensures { result ≡ option_map (λ b. kind_of_type b.declared) (bound (map bare_binding bindings.now) name.now) }
{
    for binding in bindings {
        if name == binding.name.text.as_str() {
            return Some(word_kind(&binding.declared));
        }
    }
    None
}

/// The kind of a field of the struct with a tag.
pub(crate) fn field_kind(
    source: &Source,
    tag: Word,
    name: Word,
) -> Result<Option<WordKind>, AllocError>
    ensures { let t = trees_of source.now in IfOk result (λ kind. kind ≡ kind_of_field (look_of source.now) (word t tag) (word t name)) }
{
    let trees = source.trees;
    let key = name_of_struct(trees.allocator(), trees.text(tag))?;
    match fields(source.known, key.as_str()) {
        Some(members) => Ok(bound_kind(members, trees.text(name))),
        None => Ok(None),
    }
}

/// Whether a struct has the tag.
pub(crate) fn is_struct(source: &Source, tag: Word) -> Result<bool, AllocError>
    ensures { let t = trees_of source.now in IfOk result (λ found. found ≡ is_some (fields_of (look_of source.now (struct_name (word t tag))))) }
{
    let trees = source.trees;
    let key = name_of_struct(trees.allocator(), trees.text(tag))?;
    Ok(fields(source.known, key.as_str()).is_some())
}

/// The parameters of a function.
pub(crate) fn parameters<'a>(known: &Known<'a>, name: &str) -> Option<&'a [Binding]>
    ensures { option_map (λ ps. map (λ p. kind_of_type p.declared) (map bare_binding ps.now)) result ≡ parameter_kinds (known_of known.now name.now) }
{
    let found = definition(known, name)?;
    match &found.kind {
        DefKind::Function(function) => Some(function.parameters.as_slice()),
        _ => None,
    }
}

/// The kind of a function's value; where it has none it is that of `int`.
pub(crate) fn result_kind(known: &Known, name: &str) -> WordKind
    ensures { result ≡ kind_of_type (result_type (known_of known.now name.now)) }
{
    let Some(found) = definition(known, name) else {
        return WordKind::Integer;
    };
    let DefKind::Function(function) = &found.kind else {
        return WordKind::Integer;
    };
    match &function.result {
        Some(declared) => word_kind(declared),
        None => WordKind::Integer,
    }
}
