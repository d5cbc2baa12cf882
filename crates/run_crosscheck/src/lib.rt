//! A second answer to a journal: its moves made by the source machine, and what they print compared with kept bytes.
//!
//! Whoever doubts a compiler, a journal or a kept output has the texts themselves run: [`crosscheck`] takes the texts of a run,
//! the events of a legal journal and what was answered to its offers, has the source machine make the moves of that journal
//! (`recorded_runs`, which walks trees and looks names up), and compares what it prints with the bytes. Its contract says that
//! the answer is agreement exactly where the bytes are the output of the definitions' run over these moves, else the first place
//! at which they differ (`specs/Comparisons`, `specs/Crosschecks`), and that the spans are those of the definitions. That a move
//! can't be made, or that an install isn't one of a patch, doesn't come of a legal journal: this is proved.
//!
//! Which offers were installed is an answer of the run that made the journal's events before (`dsu_runs`). Bytes are compared
//! once, and the output is kept once.
//!
//! Read in this order: `comparison` (two lists of bytes), `check` (the public call), `journal_run` (the source machine, moved
//! by events), `laws` (what a comparison says).
#![tactic(auto)]

mod check;
mod comparison;
mod journal_run;
mod laws;

pub use check::{NotChecked, SourceAnswer, crosscheck};
pub use comparison::{Comparison, compare};
pub use laws::{agreement_is_equality, differences_are_first};
