//! A text as its reader has it.

/// A text as its reader has it.
#[derive(Clone, Copy)]
pub struct Source<'a> {
    /// The name of its file.
    pub file: &'a str,
    pub bytes: &'a [u8],
}
