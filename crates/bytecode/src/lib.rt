//! The code of functions: its instructions, and what they mean.
//!
//! Code works on words of 64 bits; which kind of value a word is follows from its place in the code. What a private
//! instruction does is a definition, `specs/Meaning.antt`. A stop and a check-in are instructions too, each with the number of
//! its point in the function's skeleton.
//!
//! Read `kind`, then `specs/Words` (values as words), `specs/Instructions` and `specs/Meaning`; then `instr`, the instructions
//! with words for names, and `specs/Seen` (which instruction of the definitions each of them is).
#![tactic(auto)]

mod instr;
mod kind;

pub use instr::Instr;
pub use kind::ValueKind;
