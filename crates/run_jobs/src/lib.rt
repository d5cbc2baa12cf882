//! The commands that run the program of a file: [`run_file`] by the solo schedule, [`replay_file`] by the events of a journal.
//!
//! The contract of each says what the call came to in one word of `job_answers`; two further clauses say when it must be done,
//! and when a fault must be reported. Which engine makes the run shows in nothing.
//!
//! Read in this order: `specs/Remaining` (what came of a job once its program was read), `outcome` (what a run hands back), `run`,
//! `replay`.
#![tactic(auto)]

mod outcome;
mod replay;
mod run;

pub use replay::replay_file;
pub use run::run_file;
