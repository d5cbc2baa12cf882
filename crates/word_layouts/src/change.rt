//! What changes the objects of a struct.
ghost use Rattle.std.specs.Prelude.{◌≤◌, length};
ghost use Rattle.versioned_structs.specs.Limits.{most_fields};

use constant_values::ValueKind;
use versioned_structs::Transform;

/// How objects of a struct come to a new layout.
#[derive(Drop)]
pub struct Conversion {
    /// The kinds of the fields that they have before, in order; at most sixteen.
    pub kinds: Vec<ValueKind>,
    /// How the new fields come from those.
    pub transform: Transform,
    ghost few: { length kinds.items ≤ most_fields },
}

/// What changes the objects of a struct where a version follows another.
#[derive(Drop)]
pub enum WordChange {
    /// Each word becomes 0: the struct was added, or came back after it was gone.
    Zero,
    /// Its layout is another.
    Given(Conversion),
}
