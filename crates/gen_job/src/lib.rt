//! The command that runs a program which it makes itself: [`run_generated`] makes the program of a seed and a size with its offer, runs
//! it by the solo schedule, and prints a summary of the run.
//!
//! Its contract says what the call came to in one word of `job_answers`: the summary is that of the run which the source machine
//! makes by the same schedule.
//!
//! Read in this order: `specs/Parts` (what the parts say), `generated` (the texts, read as files are), `summary` (what is printed
//! of a run), `job`.
#![tactic(auto)]

mod generated;
mod job;
mod summary;

pub use job::run_generated;
