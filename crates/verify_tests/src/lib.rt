//! Tests of `code_verify`: good bodies pass, and each rule is broken once.
#![tactic(auto)]

#[cfg(test)]
mod bad_bodies;
#[cfg(test)]
mod bodies;
#[cfg(test)]
mod good_bodies;
