//! What notes are about.
use c_types::Typed;

/// A text, with the name and the bytes of its file.
#[derive(Clone, Copy)]
pub struct SourceText<'a> {
    pub file: &'a [u8],
    pub bytes: &'a [u8],
    pub typed: &'a Typed,
}

/// Where a frame is.
#[derive(Clone, Copy)]
pub struct Frame<'a> {
    pub function: &'a str,
    /// The version under which it was entered; the first is 1.
    pub version: u32,
    /// The point at which it last stopped, 0 before its first stop.
    pub point: u32,
}

/// Where the row in force of a thread comes from.
#[derive(Clone, Copy)]
pub enum RowFrom<'a> {
    /// The start of the thread with this function.
    Start(&'a str),
    /// The check-in that this frame passed.
    Passed(Frame<'a>),
}

/// A live thread.
#[derive(Drop)]
pub struct Thread<'a> {
    /// Its slot, counted from 0.
    pub slot: u8,
    pub row: RowFrom<'a>,
    /// Its frames, the innermost first.
    pub frames: Vec<Frame<'a>>,
    /// Whether it is pinned.
    pub is_pinned: bool,
}
