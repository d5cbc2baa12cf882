//! A call in progress.
use resolved_tree::Word;

/// A call in progress: where it is in its code. Its words are kept apart.
#[derive(Clone, Copy, PartialEq, Eq)]
pub struct Frame {
    pub function: Word,
    /// The version under which it was entered.
    pub version: u32,
    /// Which body its code is, by a number of the caller's.
    pub unit: u32,
    /// The number of the point at which it last stopped, 0 before its first stop.
    pub point: u32,
    /// The place of its next instruction.
    pub place: usize,
    /// How many words are on its stack.
    pub height: usize,
}
