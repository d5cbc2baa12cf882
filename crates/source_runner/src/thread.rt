//! Threads.
use local_evaluation::{Halt, Value, Work};
use resolved_tree::Word;

/// A call in progress.
#[derive(Drop)]
pub(crate) struct Frame {
    pub function: Word,
    /// The version under which it was entered.
    pub version: usize,
    /// The point at which it last stopped, 0 before its first stop.
    pub standing: u32,
    pub work: Work,
}

/// An enter that is due.
#[derive(Drop)]
pub(crate) struct Enter {
    pub function: Word,
    pub arguments: Vec<Value>,
    /// The version of the frame that called or spawned.
    pub version: usize,
}

/// What a thread does next.
#[derive(Drop)]
pub(crate) enum Next {
    /// It enters a function.
    Enter(Enter),
    /// The innermost frame, whose private work was done as far as its next stop, with how that ended.
    Halt(Frame, Halt),
}

/// A live thread, but for what it does next.
#[derive(Drop)]
pub(crate) struct Thread {
    /// Its number among all threads.
    pub serial: usize,
    /// The frames that wait for the one that is entered or innermost; the innermost of them is the last.
    pub below: Vec<Frame>,
    /// How many transactions it is in.
    pub depth: usize,
}

/// A thread at a stop.
#[derive(Drop)]
pub(crate) struct Stopped {
    pub slot: u8,
    pub thread: Thread,
    /// The frame that stops; those of the thread wait.
    pub frame: Frame,
    /// The number of the stop's point.
    pub point: u32,
}

/// A slot.
#[derive(Drop)]
pub(crate) enum Slot {
    Free,
    Live(Thread, Next),
    /// A thread ended there with a result and wasn't joined yet; its number among all threads.
    Over(usize, Value),
}
