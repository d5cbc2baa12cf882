//! What makes a newer text no patch for an older one by its definitions alone: a name that becomes one of another sort, and a
//! transformer whose types don't fit.
//!
//! Read the files of `specs/` in this order: `Sorts` (functions, globals and mutexes), `TransformTypes` (the types of a
//! transformer's expressions: those of an initialiser, but for the word `old`), `TransformFaults` (the faults of a text's
//! transformers, and the first of them) and `TransformLaws` (what keeps this in step with the values that transformers give; the
//! calls of `laws` carry it). `proofs/Examples` has a small text with each fault, and `proofs/ExampleSorts` names that change their
//! sort.
#![tactic(auto)]

mod fault;
mod laws;

pub use fault::TransformFault;
pub use laws::{
    faultless_values_have_their_types, first_fault_is_least, transformed_values_have_their_types,
};
