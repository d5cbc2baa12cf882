//! What is known of an event.
use skeletons::{CheckInKind, Use};

/// Where a thread is when it makes an event.
#[derive(Clone, Copy)]
pub struct Where<'a> {
    /// The slot of the thread.
    pub thread: u8,
    pub function: &'a str,
    /// The line of its place in the text of its version, counted from 1.
    pub line: usize,
    /// The column there, counted from 1 in bytes.
    pub column: u128,
    /// The version under which the function was entered.
    pub version: usize,
}

/// What a thread does at a stop.
#[derive(Clone, Copy)]
pub enum Act<'a> {
    /// It enters a function.
    Enters(&'a str),
    /// It uses a name; that of a struct is `struct` and its tag.
    Uses(Use, &'a str),
    /// It prints so many bytes.
    Prints(u64),
    Joins,
    Returns,
    /// It goes from the end of a loop's body to the loop's beginning.
    Repeats,
    /// It begins a transaction.
    Begins,
    /// It ends one.
    Ends,
    /// It is at an update point.
    Updates,
}

/// What came of it besides.
#[derive(Clone, Copy)]
pub enum After<'a> {
    Nothing,
    /// The thread that it started is in that slot.
    Started(u8),
    /// No slot was free for the thread that it wanted to start.
    NotStarted,
    /// The thread ended.
    ThreadEnded,
    /// The run ended, since `main` returned.
    RunEnded,
    /// The thread trapped; the word of the trap.
    Trapped(&'a str),
}

/// What is known of an event.
#[derive(Clone, Copy)]
pub enum Facts<'a> {
    /// No more than the event itself.
    Bare,
    /// A thread moved.
    Moved(Where<'a>, Act<'a>, After<'a>),
    /// A thread trapped after its last stop and before the next one; the word of the trap.
    TrappedAfter(Where<'a>, &'a str),
    /// A thread passed its check-in.
    CheckedIn(Where<'a>, CheckInKind),
    /// An offer was opened.
    Opened(u8),
    /// An offer was closed: the words of its answer, and the slots of the threads that it pinned.
    Closed(u8, &'a str, &'a [u8]),
}
