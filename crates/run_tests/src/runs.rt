//! What a run that has ended is compared with.
use dsu_runs::{Ran, StopCause};
use run_types::Event;

/// Why a run stopped, and its events.
pub struct End {
    pub cause: StopCause,
    pub events: &'static [Event],
}

/// Whether a run ended so.
pub fn has_ended<E>(ran: &Ran<E>, end: &End) -> bool {
    ran.cause == end.cause && ran.history.as_slice() == end.events
}
