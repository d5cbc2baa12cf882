//! What is promised of runs whose texts are accepted: whatever is installed and when, no move misuses a definition, and the
//! definitions of each transaction share a version.
//!
//! It is laws, above those of bodies and of admission, and joins the two: accepted texts have all that the admission test
//! rests on. Read `specs/AcceptedRuns`; the calls of `laws` carry the laws, `proofs/StoredBodies` shows what
//! of the store's bodies is asked, and `proofs/SoundRuns` the rest.
#![tactic(auto)]

mod laws;

pub use laws::{
    accepted_runs_are_sound, accepted_runs_are_version_consistent, accepted_runs_misuse_nothing,
};
