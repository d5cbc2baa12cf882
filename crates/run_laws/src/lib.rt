//! What one run has to do with another.
//!
//! The solo schedule leaves no choice but one: an open offer may be withdrawn where there is no memory to decide it
//! (`specs/ScheduleLaws`). The replay of a run's own journal makes the same run, to the byte (`specs/ReplayLaws`).
//!
//! It is laws alone; the calls of `laws` carry them.
#![tactic(auto)]

mod laws;

pub use laws::{replays_repeat_runs, solo_schedule_is_deterministic};
