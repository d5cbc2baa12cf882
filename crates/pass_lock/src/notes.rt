//! The entries of a history, and what one may tell of offers and threads.
use std::collections::LinkedList;

/// One entry of a history, with the number of the pass that made it.
pub struct Entry<E> {
    pub pass: u64,
    pub what: E,
}

/// Whether a thread begins in its slot or ends there.
pub enum Phase {
    Begins,
    Ends,
}

/// What an entry tells of offers and threads.
pub enum Notice {
    /// An offer opens, and these are the rows handed in, one for each slot.
    Opening(LinkedList<u16>),
    /// The open offer closes.
    Closing,
    /// The slot's row from now on, at the beginning or the end of a thread.
    Start(u8, u16, Phase),
}
