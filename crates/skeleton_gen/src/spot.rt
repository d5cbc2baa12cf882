//! Points whose names are words of the trees.
use resolved_tree::Word;
use skeletons::{CheckInKind, Use};

/// What a thread does at a point.
#[derive(Clone, Copy)]
pub(crate) enum SpotKind {
    CheckIn(CheckInKind),
    /// A stop that uses a name.
    Uses(Use, Word),
    /// A stop that uses the name of the struct with a tag.
    UsesStruct(Use, Word),
    Print,
    Join,
    Return,
    Back,
    Begin,
    End,
    Update,
}

/// A point, with the number of transactions that enclose it.
#[derive(Clone, Copy)]
pub(crate) struct Spot {
    pub kind: SpotKind,
    pub depth: u32,
}
