//! Tests of `verified_code`: bodies are verified, found in a table and executed, and threads may share the table.
#![tactic(auto)]

#[cfg(test)]
mod bodies;
#[cfg(test)]
mod tables;
