//! Tests of the base layer, and of the two crates above it that stand on it alone: what no clause of theirs says, over values
//! that were chosen by hand, by their public calls alone.
//!
//! - `containers`, `sinks`, `files`: `dsu_io`
//! - `integers`: `c_ints`
//! - `names`: `name_sets`
//! - `traps`: `run_types`
//! - `admission`: `con_freeness`
//! - `counts`: `pass_lock`
//! - `nets`: `set_constraints`
//! - `journals`: `dsu_journal`
#![tactic(auto)]

#[cfg(test)]
mod admission;
#[cfg(test)]
mod containers;
#[cfg(test)]
mod counts;
#[cfg(test)]
mod files;
#[cfg(test)]
mod integers;
#[cfg(test)]
mod journals;
#[cfg(test)]
mod names;
#[cfg(test)]
mod nets;
#[cfg(test)]
mod sinks;
#[cfg(test)]
mod traps;
