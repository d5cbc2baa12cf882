//! The inner loop of compiled code: a burst executes the private instructions of one frame up to its next stop, back edge or
//! check-in, or up to a trap, exactly as the definitions of code say. It works on words in one row, and looks at nothing that
//! a proof makes needless: no kind, no bound, no height of the stack.
//!
//! The premise is about the code alone: `specs/Heights` says when heights of the stack at its places are right.
//!
//! Read `specs/Frames` (a frame's state in a row of words) and `specs/Heights`; then `steps` (the loop), `turn` (one instruction), and
//! `stack`, `operators` and `jumps`, the instructions.
#![tactic(auto)]

mod jumps;
mod operators;
mod stack;
mod steps;
mod turn;

pub use steps::{End, Reached, burst};
