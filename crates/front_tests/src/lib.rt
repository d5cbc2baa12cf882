//! Tests of the front end's crates by their public calls: what no clause says, that the calls succeed with ample memory, and
//! that the definitions which the clauses cite mean what they should, on small texts and on values chosen by hand.
//!
//! - `reading`: rows of texts with what is read of them, and the calls that the tests share
//! - `lexer`: tokens and their faults
//! - `scopes`: declarations in nested tables
//! - `trees`: which definitions are the same, and copies
//! - `expressions`: how expressions are read
//! - `programs`: how whole texts are read, and their faults of syntax
//! - `types`: the faults of types that texts have, and the texts that have none
//! - `texts`: the first fault of a text, whichever layer it is of
//! - `generated`: the texts that `program_gen` makes
#![tactic(auto)]

#[cfg(test)]
mod expressions;
#[cfg(test)]
mod generated;
#[cfg(test)]
mod lexer;
#[cfg(test)]
mod programs;
#[cfg(test)]
mod reading;
#[cfg(test)]
mod scopes;
#[cfg(test)]
mod texts;
#[cfg(test)]
mod trees;
#[cfg(test)]
mod types;
