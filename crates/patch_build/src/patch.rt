//! The versions and a patch.
use c_types::Typed;
use code_store::{Store, StoredBody};
use name_sets::{NameSet, Names};
use type_transformers::Change;

/// How many versions there may be.
pub const MOST_VERSIONS: u32 = 64;

/// The versions so far.
#[derive(Clone, Copy)]
pub struct Versions<'a> {
    /// How many there are.
    pub count: u32,
    /// The names of all of them, and no others.
    pub names: &'a Names,
    /// The bodies that they brought.
    pub store: &'a Store,
    /// The text of the last.
    pub last: &'a Typed,
}

/// What is needed to install a newer text.
#[derive(Drop)]
pub struct Patch {
    /// The names of all versions so far, with the same ids, and of the text.
    pub names: Names,
    /// The names of the last version whose definition is another or is gone.
    pub changed: NameSet,
    /// Those of them whose interface is another or is gone.
    pub interface: NameSet,
    /// The new bodies, in the order of the text.
    pub bodies: Vec<StoredBody>,
    /// How old data becomes new, in the order of the bytes of the names.
    pub transforms: Vec<Change>,
}
