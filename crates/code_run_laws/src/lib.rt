//! What ties runs of code to those of the source machine: frames and shared data of words stand for a world, and each move of code
//! is a move of the source machine, with the same output. After an install, which brings no object, they stand for the world after it.
//!
//! Read the files of `specs/` in this order: `DataMatches` (globals, objects and mutexes), `ThreadMatches` (frames and threads),
//! `WorldMatches` (all of it) and `MoveLaws`; the call of `laws` carries the last.
#![tactic(auto)]

mod laws;

pub use laws::code_moves_as_the_source_machine;
