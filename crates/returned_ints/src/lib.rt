//! What a function gives whose result is an int: an integer of that kind, with a number in its range.
//!
//! It is one law, above the definitions of local evaluation. Each value that a body returns was converted to the type of the
//! result just before, or is zero; so the law needs nothing of what is evaluated before, and nothing of types.
//!
//! Read `specs/ReturnedInts`; the call of `laws` carries the law. Of `proofs/`, `Returning` goes by expressions,
//! `ReturningStatements` by statements, and `Coming` along a frame.
#![tactic(auto)]

mod laws;

pub use laws::returns_are_ints;
