//! What ties the shared state of the compiled engine to the source machine's, as the contracts of calls that do nothing.
//!
//! Mutexes: where each name of a list has the holder that the world has, a call answers what the stop comes to there, and
//! each name has the holder of the world after it. Objects: handles are words that tell all objects so far apart, as code
//! asks of a naming; a creation fails, and a handle leads nowhere, exactly where the world gives null and traps.
//!
//! Read `specs/LockLaws` and `specs/HandleLaws`; the calls of `laws` carry them.
#![tactic(auto)]

mod laws;

pub use laws::{handles_are_words_of_objects, locks_are_those_of_the_machine};
