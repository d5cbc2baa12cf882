use crate::TrapKind;
use name_sets::NameId;

/// One atomic step of a run. Threads go by the number of their slot, offers by their number in the words
/// of the command line.
#[derive(Clone, Copy, Debug, PartialEq, Eq)]
pub enum Event {
    /// The thread runs up to its next stop and makes it, or traps on the way.
    Move(u8),
    /// The thread, which is at a check-in, passes it.
    CheckIn(u8),
    /// The offer of that number, counted from 1, is opened.
    Offer(u8),
    /// The open offer is installed, refused, or found to be no patch, and closed.
    Decide(u8),
    /// The open offer is closed with nothing changed.
    Withdraw(u8),
}

/// How a run ended.
#[derive(Clone, Copy, Debug, PartialEq, Eq)]
pub enum Ending {
    /// `main` returned this value.
    Finished(i32),
    /// The thread in this slot trapped.
    Trap(TrapKind, u8),
    /// No thread can go on: each that lives waits for a mutex or for another thread.
    Deadlock,
    /// The run was stopped while it could have gone on.
    Cut,
}

/// What a thread waits for.
#[derive(Clone, Copy, Debug, PartialEq, Eq)]
pub enum Wait {
    /// The mutex of that name, which the thread in that slot holds.
    Mutex(NameId, u8),
    /// The end of the thread in that slot.
    Thread(u8),
}
