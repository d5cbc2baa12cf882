//! What is kept of a thread.
use name_sets::NameId;

/// Where a row in force comes from.
#[derive(Clone, Copy, Debug, PartialEq, Eq)]
pub enum Origin {
    /// The start of a thread with this function.
    Start(NameId),
    /// A check-in that the innermost frame passed: the frame's function, the version under which it was entered, and the
    /// point of its last stop.
    Passed(NameId, u32, u32),
}
