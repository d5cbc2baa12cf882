//! Tests of installs in shared data in words: what no clause says, over changes that were written by hand, by public calls alone.
//!
//! - `bench`: shared data with a row of words, on which stops are made after the object that they use was brought, and which takes installs
//! - `layouts`: layouts of structs, by hand, and what is prepared of them
//! - `objects`: objects of several versions, used in a later one
//! - `rows`: globals, arrays and mutexes at an install
#![tactic(auto)]

mod bench;
mod layouts;
#[cfg(test)]
mod objects;
#[cfg(test)]
mod rows;

pub use bench::Bench;
pub use layouts::{added, four_structs, last_struct_again, struct_changes, swapped, zero};
