//! A slot as a decision sees it.
use rows_in_force::Origin;

/// A slot as a decision sees it.
#[derive(Clone, Copy)]
pub struct Seat {
    /// Where the row in force comes from, if a thread lives there.
    pub origin: Option<Origin>,
    /// Whether its thread is pinned.
    pub pinned: bool,
    /// Whether its thread is in a transaction.
    pub in_transaction: bool,
}
