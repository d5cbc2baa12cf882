use dsu_io::{List, Text};

/// The names that a newer text changes, each list in the order of bytes. A struct's name is `struct` and its tag after a blank.
#[derive(Debug, Drop)]
pub struct Changes {
    /// Those of the older text whose definition is another in the newer one, or is gone. A changed initialiser alone is no
    /// change.
    pub changed: List<Text>,
    /// Those of them whose interface is another or is gone: a struct's fields with their types in order, a function's types, a
    /// global's type, an array's element type and length.
    pub interface: List<Text>,
    /// Those that only the newer text has.
    pub added: List<Text>,
}

/// Why two texts weren't compared.
#[derive(Debug, Drop)]
pub enum CompareFault {
    /// The least name that is a function, a global or a mutex in one text and another of these in the other.
    Kind(Text),
    /// Out of memory.
    Memory,
}
