//! What the stops of an accepted text's code have.
//!
//! It is laws. Code isn't loaded by what is known where threads come: each instruction of a function is looked at, also one that no
//! thread reaches. At each stop of an accepted text's code the names that it uses are those of definitions of the kind that it needs,
//! and have numbers below 2,048; a call has at most 64 arguments; the check-in that is to follow a stop follows it; and back edges
//! lead to places of the code. So whoever looks these up finds them, and reports lack of memory for that alone.
//!
//! Read `specs/StopNames` (what a stop names) and `specs/FittingCode` (the laws); the calls of `laws` carry them. In `proofs/`,
//! `Fitting` has code in parts, `TreeStops` the stops of typed trees, `FewNames` how many names a text has, `FoundNames` their
//! numbers, `StructNames` what a struct's name is defined as, and `Stops` the laws.
#![tactic(auto)]

mod laws;

pub use laws::{accepted_code_fits, accepted_names_are_few, accepted_structs_are_small};
