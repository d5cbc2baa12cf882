//! The commands over texts that run nothing: [`check_file`] counts the names of a text, [`effects_file`] prints its effects,
//! [`changes_files`] prints what changes from one text to another, and [`admits_files`] prints where a run of the one could take
//! the other.
//!
//! The contract of each says what the call came to in one word of `job_answers`; two further clauses say when it must be done,
//! and when a fault must be reported.
//!
//! Read in this order: `specs/Newer` (what came of the newer of two texts), `check`, `effects_job`, `changes_job`, `admits_job`.
#![tactic(auto)]

mod admits_job;
mod changes_job;
mod check;
mod effects_job;

pub use admits_job::admits_files;
pub use changes_job::changes_files;
pub use check::check_file;
pub use effects_job::effects_file;
