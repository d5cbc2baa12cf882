//! The limits of a text, but for that of its names, which is `name_sets::MOST_NAMES`. What goes past one is reported at the
//! first token of its definition.

/// Tokens of a function, from its result type to its closing brace.
pub(crate) const MOST_TOKENS: u32 = 4096;

/// Parameters of a function.
pub(crate) const MOST_PARAMETERS: usize = 8;

/// Variables of a function, its parameters with them.
pub(crate) const MOST_VARIABLES: usize = 64;

/// Fields of a struct.
pub(crate) const MOST_FIELDS: usize = 16;

/// Cells of all globals and arrays of a text.
pub(crate) const MOST_CELLS: u64 = 65_536;

/// The length of an array.
pub(crate) const LONGEST_ARRAY: i128 = 65_536;
