//! Drafts of the notes that follow the line of an offer in a report, with what such notes are about: texts as their readers have
//! them, and live threads.
//!
//! [`Draft`] puts lines together; nothing of a line is shown before it ends. [`add_lines`] adds lines to notes, each after a mark, and
//! promises that notes stay notes (`AreNotes` of `fault_notes`), whatever names and texts the lines have in them.
//!
//! Read in this order: `subjects` (texts and threads), `draft` (lines that are put together), `lines` (drafts as notes).
#![tactic(auto)]

mod draft;
mod lines;
mod subjects;

pub use draft::Draft;
pub use lines::add_lines;
pub use subjects::{Frame, RowFrom, SourceText, Thread};
