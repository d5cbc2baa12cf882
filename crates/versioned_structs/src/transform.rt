//! The fields of a new layout from those of the old one.
ghost use Rattle.std.specs.Prelude.{◌≡◌, ◌≤◌, map, length};
ghost use Rattle.local_evaluation.specs.Values.{seen};
ghost use Rattle.versioned_structs.specs.Limits.{most_fields};
ghost use Rattle.versioned_structs.specs.Transforms.{new_value, new_values};

use crate::fields::Fields;
use crate::formula::{Formula, value_at};
use constant_values::{ValueKind, converted, zero};
use local_evaluation::Value;
use std::marker::Model;

/// How a field of the new layout gets its value.
#[derive(Debug, Drop)]
pub enum FieldChange {
    /// The old value at that place of the old layout, counted from 0. Past its end it is the `int` 0.
    Copied(usize),
    /// Zero of that kind.
    Zero(ValueKind),
    /// The value of a formula, converted to that kind.
    Given(ValueKind, Formula),
}

impl FieldChange {
    /// The new value, from the values of the old fields in their order.
    pub fn value(&self, old: &[Value]) -> Value
        ensures { seen result ≡ new_value (map seen old.now) self.now }
    {
        match self {
            FieldChange::Copied(place) => value_at(old, *place),
            FieldChange::Zero(kind) => zero(*kind),
            FieldChange::Given(kind, formula) => converted(*kind, formula.value(old)),
        }
    }
}

/// How each field of the new layout gets its value, in the order of the fields. Contracts see the list of the changes, of
/// which there are at most sixteen.
#[derive(Drop)]
pub struct Transform {
    changes: Vec<FieldChange>,
}

impl Model for Transform {
    ghost use Rattle.std.specs.Prelude.{◌≤◌, List, length};
    ghost use Rattle.std.specs.Coded.{codes};
    ghost use Rattle.versioned_structs.specs.declared.transform.FieldChange.{FieldChange};
    ghost use Rattle.versioned_structs.specs.contracts.formula.Formula as formula;
    ghost use Rattle.versioned_structs.specs.Limits.{most_fields};

    ghost Value = { List FieldChange };

    ghost coded = { Prim.hlevel (codes, formula.the_row.coded) };

    ghost view = { λ t. t.changes.items };

    ghost invariant = { λ t. length t.changes.items ≤ most_fields };
}

impl Transform {
    /// Takes the changes over; no memory is taken.
    pub fn of(changes: Vec<FieldChange>) -> Transform
        requires { length changes.items ≤ most_fields }
        ensures { result ≡ changes.items }
    {
        Transform { changes }
    }

    /// The changes, in order.
    pub fn as_slice(&self) -> &[FieldChange]
        ensures changes { result.now ≡ self.now }
        ensures few { length self.now ≤ most_fields }
    {
        self.changes.as_slice()
    }
}

/// The fields of the new layout, from those of the old one.
pub fn apply(transform: &Transform, fields: &Fields) -> Fields
    ensures { map seen result ≡ new_values transform.now (map seen fields.now) }
{
    let old = fields.as_slice();
    let changes = transform.as_slice();
    let mut new = Fields::new();
    for change in changes {
        new.push(change.value(old));
    }
    new
}
