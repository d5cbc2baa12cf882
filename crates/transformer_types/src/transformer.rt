ghost use Rattle.std.specs.Prelude.{◌≡◌, flat_map, option_copied};
ghost use Rattle.c_definitions.specs.Lookup.{defined, meaning_in, members_in, members_of};
ghost use Rattle.patch_faults.specs.TransformFaults.{first};
ghost use Rattle.transformer_types.specs.Alone.{faults_at_alone, field_faults_alone, global_faults_alone, struct_faults_alone, variable_type};

use crate::fault::sooner;
use crate::found::Old;
use crate::layout::{same_layout, same_type};
use crate::value::{field_fault, value_fault};
use c_definitions::Known;
use c_tree::{Binding, CType, Def, DefKind, Expr, FieldValue};
use dsu_io::List;
use patch_faults::TransformFault;

/// The fields that a struct's definition has.
fn members_in(kind: &DefKind) -> Option<&List<Binding>>
    ensures { option_copied result ≡ members_in kind.now }
{
    match kind {
        DefKind::Struct(_, members) => Some(members),
        _ => None,
    }
}

/// The fields of a tag's struct, where the text defines it.
fn members_of<'a>(text: &Known<'a>, tag: &str) -> Option<&'a List<Binding>>
    ensures { option_copied result ≡ members_of text.now tag.now }
{
    members_in(&text.struct_of(tag)?.kind)
}

/// The type of the variable that a definition defines.
fn variable_in(kind: &DefKind) -> Option<&CType>
    ensures { option_copied result ≡ variable_type (meaning_in kind.now) }
{
    match kind {
        DefKind::Global(declaration) => Some(&declaration.declared),
        _ => None,
    }
}

/// The type of a global variable; an array has none.
fn variable_of<'a>(text: &Known<'a>, name: &str) -> Option<&'a CType>
    ensures { option_copied result ≡ variable_type (defined text.now name.now) }
{
    variable_in(&text.definition_of(name)?.kind)
}

/// The first fault of the values that fields are given.
fn values_fault(old: &[Binding], new: &[Binding], values: &[FieldValue]) -> Option<TransformFault>
    ensures { result ≡ first (flat_map (field_faults_alone old.now new.now) values.now) }
{
    let mut fault = None;
    for given in values {
        fault = sooner(fault, field_fault(old, new, given));
    }
    fault
}

/// The first fault of a struct's transformer at a place, by the fields of the struct in both texts.
fn struct_fault(
    place: usize,
    old: Option<&List<Binding>>,
    new: Option<&List<Binding>>,
    values: &[FieldValue],
) -> Option<TransformFault>
    ensures { result ≡ first (struct_faults_alone place (option_copied old.entry) (option_copied new.entry) values.now) }
{
    let (Some(old), Some(new)) = (old, new) else {
        return Some(TransformFault::NotChanged(place));
    };
    let (old, new) = (old.as_slice(), new.as_slice());
    if same_layout(old, new) {
        return Some(TransformFault::NotChanged(place));
    }
    values_fault(old, new, values)
}

/// The first fault of a global's transformer at a place, by the types of the variable in both texts.
fn global_fault(
    place: usize,
    old: Option<&CType>,
    new: Option<&CType>,
    value: &Expr,
) -> Option<TransformFault>
    ensures { result ≡ first (global_faults_alone place (option_copied old.entry) (option_copied new.entry) value.now) }
{
    let (Some(old), Some(new)) = (old, new) else {
        return Some(TransformFault::NotChanged(place));
    };
    if same_type(old, new) {
        return Some(TransformFault::NotChanged(place));
    }
    value_fault(Old::Value(old), new, value)
}

/// The first fault of a definition of the newer text, where it is a transformer.
pub(crate) fn fault_at(old: &Known, new: &Known, definition: &Def) -> Option<TransformFault>
    ensures { result ≡ first (faults_at_alone old.now new.now definition.now.place definition.now.kind) }
{
    let place = definition.place;
    match &definition.kind {
        DefKind::TransformStruct(transform) => {
            let tag = transform.name.text.as_str();
            struct_fault(
                place,
                members_of(old, tag),
                members_of(new, tag),
                transform.values.as_slice(),
            )
        }
        DefKind::TransformGlobal(name, value) => {
            let name = name.text.as_str();
            global_fault(place, variable_of(old, name), variable_of(new, name), value)
        }
        _ => None,
    }
}
