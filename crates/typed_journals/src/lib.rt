//! Type soundness and progress of journaled runs: of the worlds that a legal journal comes to, whatever is offered, decided and
//! installed, where the first text and those of the offers are accepted.
//!
//! It is laws, above those of runs: the moves of a legal journal are a run, and what it installs are patches, whose transformers
//! have no fault. What main returned is an int, and in a deadlock each thread that lives waits; the contracts of the commands cite
//! both. Read `specs/TypedJournals`; the calls of `laws` carry the laws. Of `proofs/`, `Journals` goes by events, `Results` by the
//! last move of a run, and `Deadlocks` by the definition of an ending.
#![tactic(auto)]

mod laws;

pub use laws::{
    deadlocked_threads_wait, journals_are_typed, mains_result_is_an_int, threads_of_journals_go_on,
};
