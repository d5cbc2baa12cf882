//! What the value under the lock notes, and what a turn answers.
use dsu_runs::StopCause;
use run_types::Event;

/// What an entry of the lock's history says.
pub enum Note {
    /// An event was made.
    Made(Event),
    /// The run is over.
    Over(StopCause),
}

/// An event, with the number of the pass that made it.
#[derive(Clone, Copy, Debug, PartialEq, Eq)]
pub struct Noted {
    pub pass: u8,
    pub event: Event,
}

/// Whether the run goes on.
#[derive(Clone, Copy, Debug, PartialEq, Eq)]
pub enum Course {
    Going,
    /// Not all that the last move printed could be written. The next turn notes that the run is over.
    Failing,
    /// The pass of that number noted that the run is over.
    Over(u8, StopCause),
}

/// What a turn of a slot's pass answers.
#[derive(Clone, Copy, Debug, PartialEq, Eq)]
pub enum Look {
    /// The thread made its move.
    Moved,
    /// The thread passed its check-in.
    CheckedIn,
    /// The thread is at a check-in, and an offer is open.
    Held,
    /// The thread can't move: it waits for a mutex or for another thread.
    Waits,
    /// No thread is in the slot.
    Idle,
    /// No move is left and no thread can act, but an offer is still open.
    Closing,
    /// This offer is due.
    Due(u8),
    /// The run is over.
    Ended,
}
