//! The fields of an object.
ghost use Rattle.std.specs.Prelude.{◌≡◌, ◌<◌, ◌≤◌, [], ◌∷◌, ◌++◌, length};
ghost use Rattle.versioned_structs.specs.Limits.{most_fields};

use c_ints::Int;
use local_evaluation::Value;
use std::marker::Model;

/// How many fields an object has at most.
pub const MOST_FIELDS: usize = 16;

/// At most sixteen values, in a fixed row. Contracts see the list of them.
#[derive(Drop)]
pub struct Fields {
    values: [Value; 16],
    /// How many of the row's places are fields: the first ones.
    used: usize,
}

impl Model for Fields {
    ghost use Rattle.std.specs.Prelude.{◌≤◌, List, take};
    ghost use Rattle.local_evaluation.specs.declared.value.Value.{Value as Held};
    ghost use Rattle.versioned_structs.specs.Limits.{most_fields};

    ghost Value = { List Held };

    ghost view = { λ f. take f.used f.values };

    ghost invariant = { λ f. f.used ≤ most_fields };
}

impl Fields {
    /// No fields.
    pub fn new() -> Fields
        ensures { result ≡ [] }
    {
        Fields {
            values: [Value::Number(Int::I32(0)); 16],
            used: 0,
        }
    }

    /// The fields with these values.
    pub fn of(values: &[Value]) -> Fields
        requires { length values.now ≤ most_fields }
        ensures { result ≡ values.now }
    {
        let mut fields = Fields::new();
        for value in values {
            fields.push(*value);
        }
        fields
    }

    /// Adds a field after those that are there.
    pub fn push(&mut self, value: Value)
        requires { length self.old < most_fields }
        ensures { self.new ≡ self.old ++ value ∷ [] }
    {
        self.values[self.used] = value;
        self.used += 1;
    }

    /// The values, in order.
    pub fn as_slice(&self) -> &[Value]
        ensures values { result.now ≡ self.now }
        ensures few { length self.now ≤ most_fields }
    {
        &self.values[..self.used]
    }
}
