//! An object.
use name_sets::NameId;

/// How many fields an object has at most.
pub const MOST_FIELDS: usize = 16;

/// A live object of a struct.
#[derive(Clone, Copy, Debug, PartialEq, Eq)]
pub struct Object {
    /// The name of its struct.
    pub tag: NameId,
    /// The number of the layout that its fields have.
    pub layout: u32,
    /// The words of its fields, in order.
    pub fields: [u64; MOST_FIELDS],
}
