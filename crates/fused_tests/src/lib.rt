//! Tests of fused code: a code with each form of operation does the same to the same words as its plain instructions, to its end and
//! to traps.
#![tactic(auto)]

mod codes;
#[cfg(test)]
mod forms;
