//! How the fields of a new layout come from those of the old one.
ghost use Rattle.std.specs.Prelude.{◌≡◌, ◌≤◌, map, length, find, bytes_eq, option_copied, IfOk};
ghost use Rattle.c_tree.specs.Bare.{bare_type, bare_expr, bare_binding, bare_field_value};
ghost use Rattle.versioned_structs.specs.Limits.{most_fields};
ghost use Rattle.type_transformers.specs.Fields.{IsGivenChange, IsDefaultChange, IsFieldChange, AreFieldChanges};

use crate::formula::{OldWord, formula};
use crate::layout::place_in;
use c_tree::{Binding, Expr, FieldValue, same_type};
use constant_values::kind_of;
use std::alloc::{AllocError, Global};
use versioned_structs::{FieldChange, Transform};

/// How each field of a new layout comes from those of the old one, by the values that a transformer gives.
pub(crate) fn transform_of(
    alloc: Global,
    old: &[Binding],
    new: &[Binding],
    given: &[FieldValue],
) -> Result<Transform, AllocError>
    requires { length new.now ≤ most_fields }
    ensures { IfOk result (AreFieldChanges (map bare_binding old.now) (map bare_field_value given.now) (map bare_binding new.now)) }
{
    let changes = field_changes(alloc, old, new, given)?;
    Ok(Transform::of(changes))
}

/// How each field comes.
fn field_changes(
    alloc: Global,
    old: &[Binding],
    new: &[Binding],
    given: &[FieldValue],
) -> Result<Vec<FieldChange>, AllocError>
    ensures changes { IfOk result (λ changes. AreFieldChanges (map bare_binding old.now) (map bare_field_value given.now) (map bare_binding new.now) changes.items) }
    ensures each { IfOk result (λ changes. length changes.items ≡ length new.now) }
{
    let mut changes = Vec::new(alloc);
    for field in new {
        changes.push(field_change(alloc, old, given, field)?)?;
    }
    Ok(changes)
}

/// How a field comes: by the first value that the transformer gives for it, else by default.
fn field_change(
    alloc: Global,
    old: &[Binding],
    given: &[FieldValue],
    field: &Binding,
) -> Result<FieldChange, AllocError>
    ensures { IfOk result (IsFieldChange (map bare_binding old.now) (map bare_field_value given.now) (bare_binding field.now)) }
{
    match value_for(given, field.name.text.as_str()) {
        Some(value) => given_change(alloc, old, field, &value.value),
        None => Ok(default_change(old, field)),
    }
}

/// The first value that is given for a field.
fn value_for<'a>(given: &'a [FieldValue], name: &str) -> Option<&'a FieldValue>
    ensures { option_copied result ≡ find (λ v. bytes_eq name.now v.field.text) given.now }
{
    for value in given {
        if name == value.field.text.as_str() {
            return Some(value);
        }
    }
    None
}

/// The value of an expression over the old fields.
fn given_change(
    alloc: Global,
    old: &[Binding],
    field: &Binding,
    value: &Expr,
) -> Result<FieldChange, AllocError>
    ensures { IfOk result (IsGivenChange (map bare_binding old.now) (bare_type field.now.declared) (bare_expr value.now)) }
{
    let formula = formula(alloc, &OldWord::Object(old), value)?;
    Ok(FieldChange::Given(kind_of(&field.declared), formula))
}

/// A copy, where the old layout has a field of that name and type, else zero.
fn default_change(old: &[Binding], field: &Binding) -> FieldChange
    ensures { IsDefaultChange (map bare_binding old.now) (bare_binding field.now) result }
{
    let Some(place) = place_in(old, field.name.text.as_str()) else {
        return FieldChange::Zero(kind_of(&field.declared));
    };
    if same_type(&old[place].declared, &field.declared) {
        FieldChange::Copied(place)
    } else {
        FieldChange::Zero(kind_of(&field.declared))
    }
}
