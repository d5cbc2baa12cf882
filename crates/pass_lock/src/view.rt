//! What a seat of the lock's table knows. No value of these types is made.
use crate::notes::Entry;
use std::collections::LinkedList;

/// A check-in of a slot's own pass.
pub struct CheckIn {
    pub row: u64,
    /// The number of closings, as the last thaw wrote it.
    pub stamp: u64,
    /// How many entries of its own the pass had made before it.
    pub before: u64,
}

/// A moment at which a slot's own pass found its word frozen.
pub struct Held {
    pub stamp: u64,
    /// How many openings there were.
    pub openings: u64,
    /// How many entries of its own the pass had made before it.
    pub before: u64,
}

/// What one step of a turn did to a slot's word.
pub enum Change {
    Froze,
    Read,
    Started,
    Thawed,
}

/// A step of a turn on a slot's word.
pub struct Deed {
    pub change: Change,
    pub slot: u64,
    /// The word as the step left it: its frozen bit, its stamp and its row.
    pub left: u64,
}

/// What is known of one pass.
pub struct Claim<E> {
    pub number: u64,
    /// The history as it was when the pass last gave its turn back.
    pub seen: LinkedList<Entry<E>>,
    /// What the pass's own entries say, in order.
    pub own: LinkedList<E>,
    pub checkins: LinkedList<CheckIn>,
    pub helds: LinkedList<Held>,
}

/// A turn that is out.
pub struct Open<E> {
    /// The history as it was when the turn began.
    pub log: LinkedList<Entry<E>>,
    /// The turn's steps on slots' words, in order.
    pub deeds: LinkedList<Deed>,
}

pub enum Stage<E> {
    Idle,
    /// With a ticket.
    Waiting(u64),
    /// With the ticket that is served.
    Turning(u64, Open<E>),
}

/// What a seat knows.
pub struct View<E> {
    pub stage: Stage<E>,
    /// One for a pass, none for the first seat and for one that was joined to another, several while the lock is closed.
    pub claims: LinkedList<Claim<E>>,
    /// For the first seat, which makes the passes, one more than it has made. Else 0.
    pub makes: u64,
}
