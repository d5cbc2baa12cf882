//! What a command reads: the program of a file, and the events of a journal's file. Where there is none, the answer is
//! the line of a fault.
//!
//! The contracts of [`source_of`] and [`journal_of`] are exact but for a file or memory that fails. A text that is known
//! and no longer than its limit is read where it is accepted, as its tree; where it isn't, the answer is the line of its
//! first fault (`specs/Lines.antt`, `specs/Sources.antt`). The same holds of a journal and its events
//! (`specs/Journals.antt`).
//!
//! - `bytes`: a file's bytes
//! - `source`: a program's text and its tree
//! - `journal`: a journal's events
#![tactic(auto)]

mod bytes;
mod journal;
mod source;

pub use journal::{JOURNAL_LIMIT, journal_of};
pub use source::{Source, TEXT_LIMIT, source_of, tree_of};
