//! The operators of C on integers as words of 64 bits, with no integer type between: each takes the low bits of its operands,
//! works on them directly, and gives the word that `c_ints` defines for the result, or its trap.
//!
//! Read `number` (words as numbers of a kind), then `signed` and `unsigned`, and `operators`, which chooses among them.
#![tactic(auto)]

mod number;
mod operators;
mod signed;
mod unsigned;

pub use operators::{binary, convert, unary};
