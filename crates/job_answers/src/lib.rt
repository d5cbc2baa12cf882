//! What each command comes to, as definitions, and how a job begins: its program is read, or a fault ends it.
//!
//! `specs/Answers.antt` says in one word what the call of a job came to: it was done, a file of it has a fault, or memory ran
//! out; with what standard output and standard error have in each case. Each command's crate cites it. [`program_of`] and
//! [`source_in`] read the text of a file, [`events_of`] a journal, or each answers the first fault; [`stop`] reports a fault by which
//! a job comes to nothing.
//!
//! Read in this order: `specs/Plans` (in which order events are made), `specs/Jobs` (what the files of a job have), `specs/Calls`
//! (what a call left), `specs/Reports` (what is printed), `specs/Runs`, `specs/Generated` and `specs/Answers` (what a job came to);
//! then `outcome` (what a call hands back), `stopped` (calls that come to nothing), `input` (the files of a job).
#![tactic(auto)]

mod input;
mod outcome;
mod stopped;

pub use input::{events_of, program_of, source_in};
pub use outcome::{InForce, Outcome, without_end};
pub use stopped::{stop, stop_after};
