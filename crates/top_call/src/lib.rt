//! All that the program does, over words, files and outputs that are handed in.
//!
//! [`dsu_main`] does what the words of a command line ask for; its contract is what the program promises. What each command
//! does is in `text_jobs`, `run_jobs` and `gen_job`, in the words of `job_answers`. A job that is to be explained is done as a
//! plain one whose report is kept, and then the report is written with notes added to it (`specs/Explained.antt`).
//!
//! Read in this order: `words` (what the words ask for), `plain` (a job as it is), `runs` (what explains the report of a run that
//! ended), `pairs` (what explains that a text is no patch), `notes` (what explains the report of a job), `explained` (a job with its report explained), `top` (the top call).
#![tactic(auto)]

mod explained;
mod notes;
mod pairs;
mod plain;
mod runs;
mod top;
mod words;

pub use top::dsu_main;
