//! What transformers give, as the contract of a call that does nothing but cite what it rests on.

ghost use Rattle.typed_transformers.specs.TransformerTypes.{CellsAreTyped, FieldsAreTyped};

use patch_faults::{faultless_values_have_their_types, first_fault_is_least};

/// What an object or a global of an accepted text becomes in the next one has the types of that text, where its transformers
/// have no fault: a field or a variable of a handle's type is null or names an object of that struct.
pub fn transformed_values_are_typed()
    ensures fields { FieldsAreTyped }
    ensures cells { CellsAreTyped }
{
    first_fault_is_least();
    faultless_values_have_their_types();
}
