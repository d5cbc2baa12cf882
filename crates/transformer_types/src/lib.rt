//! The types of transformers, and the first fault of a newer text's transformers.
//!
//! [`first_fault`] takes two texts that type and answers exactly the fault that `patch_faults` defines, by place the first of all
//! transformers; it can only fail for lack of memory for its tables of names. Types are lent from the two texts, never copied.
//!
//! Read in this order: `fault` (what may be wrong with a value, and which of two faults comes first), `found` (what an
//! expression may be, and what may be required of it), `form` (each form of expression by its parts), `infer` (an expression
//! whole), `layout` (types and fields of structs), `value` (a value for a field or a global), `transformer` (each kind of
//! transformer), `text` (all transformers of a text).
#![tactic(auto, using(c_expr_types::proofs::Firsts::first_append))]

mod fault;
mod form;
mod found;
mod infer;
mod layout;
mod text;
mod transformer;
mod value;

pub use text::first_fault;
