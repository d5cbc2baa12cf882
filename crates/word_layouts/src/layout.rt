//! The layout of a struct in a text.
ghost use Rattle.std.specs.Prelude.{◌≤◌, length};
ghost use Rattle.versioned_structs.specs.Limits.{most_fields};

use constant_values::ValueKind;
use dsu_io::Text;

/// The layout of a struct of a text. Those of a text are in a table with a place for each tag that a text of the run defines, by the
/// numbers of these tags.
#[derive(Drop)]
pub struct Layout {
    pub tag: Text,
    /// The kinds of the fields, in order; at most sixteen.
    pub kinds: Vec<ValueKind>,
    ghost few: { length kinds.items ≤ most_fields },
}
