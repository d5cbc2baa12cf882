//! The constants of an accepted text are integers of their kinds.
//!
//! A tree has a constant where its text writes a number or a character, or where the language means one: a `return` without
//! a value, `++`, the constants of the library. Definitions allow a tree whose constant is out of the range of its kind, as a
//! `char` of 1,000. In a tree that is read from bytes none is: the kind of a number is one that holds it, and a character is
//! a byte of ASCII. So each constant has a word of 64 bits, which is what code asks of it.
//!
//! Read `specs/Ranges`; the call of `laws` carries the law. In `proofs/`, `Characters` says what the tokens of characters are,
//! `Numbers` what numbers are; the grammar gives the rest (`Expressions`, `Statements`, `Functions`), and `Resolution` takes it
//! to resolved trees.
#![tactic(auto)]

mod laws;

pub use laws::constants_are_in_range;
