//! What a text's types must be, and the first place where they aren't.
//!
//! `specs/` has the rules of the whole language: the faults of each node given its parts, and the fault of a text that is
//! told. [`check`] takes a text's tree and gives a [`Typed`], which is seen as the tree and whose type keeps that it has no
//! fault, or else tells exactly its first fault. The definitions of a text by name are `c_definitions`, the types of
//! expressions `c_expr_types`.
//!
//! Read in this order: `statement` (what surrounds statements, and those without others in them), `walk` (statements whole),
//! `measure` (how many variables and how much room statements need), `limits` and `size` (what is too large), `parameter`
//! (names with types), `initial` (initialisers of globals), `transformer` and `struct_transformer` (the form of
//! transformers), `context` (a definition with what comes before it), `definition` (each kind of definition), `program`
//! (whole texts).
#![tactic(auto, using(c_expr_types::proofs::Firsts::first_append))]

mod context;
mod definition;
mod initial;
mod limits;
mod measure;
mod parameter;
mod program;
mod size;
mod statement;
mod struct_transformer;
mod transformer;
mod walk;

pub use c_expr_types::{TypeFault, TypeKind};
pub use program::{Typed, check};
