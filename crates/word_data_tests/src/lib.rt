//! Tests of stops on shared data in words: what no clause says, over words that were written by hand, by public calls alone. Each stop
//! is made once with ample memory, and so is each trap.
//!
//! - `bench`: shared data with a row of words, on which a test makes stops
//! - `cells`: globals and arrays, within and past their ends
//! - `objects`: full stores, null and stale handles, fields
//! - `mutexes`: two threads at one mutex
//! - `prints`: each conversion with extreme values
#![tactic(auto)]

mod bench;
#[cfg(test)]
mod cells;
#[cfg(test)]
mod mutexes;
#[cfg(test)]
mod objects;
#[cfg(test)]
mod prints;

pub use bench::Bench;
