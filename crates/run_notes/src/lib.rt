//! What explains the report of a run: for each line about an offer, and for the lines of its ending, notes that follow it.
//!
//! [`run_notes`] replays the events of a run on an engine of its own, whose output nobody sees, and looks at it where an offer
//! was decided and where the run ended. It promises the form alone: what it gives are notes, lines after a mark (`AreNotes` of
//! `fault_notes`). What the lines say is tested. Nothing is done at an event but the event itself.
//!
//! Read in this order: `stands` (texts and threads as the notes of an offer need them), `offers` (the notes of a decision),
//! `replayed` (the events, one after the other).
#![tactic(auto)]

mod offers;
mod replayed;
mod stands;

pub use replayed::run_notes;
