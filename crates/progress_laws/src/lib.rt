//! Progress of runs: as long as a run of accepted texts goes on, each thread that lives makes its next move, which may be a trap, or it
//! waits, for a mutex that another thread holds or for a thread that it joins.
//!
//! It is laws, above the types of runs. Types give it but for the end of a transaction, which a thread makes only in one. So the first
//! law is that each thread is in as many transactions as its frames together: each frame comes through the body of its function, in
//! which an end is in a transaction and a return in none.
//!
//! Read `specs/Depths` and `ProgressLaws`; the calls of `laws` carry the laws. Of `proofs/`, `Depths` goes by stops and moves, and
//! `Runs` along runs.
#![tactic(auto)]

mod laws;

pub use laws::{depths_add_up, threads_of_runs_go_on};
