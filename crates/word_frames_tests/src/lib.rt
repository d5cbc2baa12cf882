//! Tests of a thread's frames, over three functions in code: arguments in order, calls as deep as may be and one too many, words
//! that deeper calls leave alone, and memory that is taken once.
#![tactic(auto)]

mod codes;
mod driver;
#[cfg(test)]
mod runs;
