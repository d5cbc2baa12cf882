//! Tests of bursts: a loop of a million turns, whose back edge the test drives; each operator's traps, and narrow kinds; and
//! the instructions of the stack.
#![tactic(auto)]

mod codes;
#[cfg(test)]
mod loops;
#[cfg(test)]
mod operations;
