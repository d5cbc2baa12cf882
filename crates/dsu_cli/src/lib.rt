//! The words of a command line.
//!
//! `read_words` answers the job that the words name, and whether it is explained, or that they fit no line of
//! the definition in `specs/Words.antt`. That definition is what a reader must believe: one line a command,
//! and the rules by which a word is an option, a value or a positional.
//!
//! The words are tested first, without memory; the values of words that fit are then found by `clap`.
//!
//! Read in this order: `job` (what is asked for), `command`, `setting` and `number` (what a command has, and
//! which values an option and a positional may have), `fit` (which words fit), `sorted` (the words by their
//! names, read by `clap`), `read` (the call).
#![tactic(auto)]

mod command;
mod fit;
mod job;
mod number;
mod read;
mod setting;
mod sorted;

pub use job::{CliFault, Detail, EngineKind, Job, Offer, ReplayJob, Request, RunJob};
pub use read::read_words;
