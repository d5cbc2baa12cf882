//! Verified code has right heights of its stack, so it may be executed in bursts.
//!
//! What `verify` of `code_verify` passes, `burst` of `thread_state` may execute, from each place that has a height: the heights
//! are those that the verifier answers, and no name of the code matters. Between two bursts a frame goes on at the next place,
//! or where a loop begins; the laws say which height is there, by the numbers of words that stops take and leave.
//!
//! Read `specs/StopWords`, `Executable` and `SoundLaws`; the calls of `laws` carry them. In `proofs/`, `Counts` has the numbers of words that
//! instructions take and leave, `Places` the shapes of places, `Tables` code under other names; `Whole`, `Between` and `Execution` end the
//! proofs, and `Examples` has small bodies.
#![tactic(auto)]

mod laws;

pub use laws::{frames_go_on, verified_code_is_sound};
