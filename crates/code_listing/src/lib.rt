//! Code as text, for documents and tests.
//!
//! [`listing`] has one line an instruction: its place, its name and its operands. A jump is shown with the place to which it
//! leads, a back edge also with the number of variables in scope there, a stop and a check-in with the number of their point after
//! `@`.
//!
//! ```text
//!   0 check_in entry @0
//!   1 load 0
//!   2 jump_if_zero 5
//!   3 halt read_global counter @1
//!   4 halt return @2
//!   5 constant i32 0
//!   6 halt return @3
//! ```
//!
//! Read in this order: `names` (the names of kinds, operators and stops), `line` (an instruction) and `list` (the whole).
#![tactic(auto)]

mod line;
mod list;
mod names;

pub use list::listing;
