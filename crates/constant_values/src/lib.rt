//! The values of constant expressions: those of initialisers and of transformers, whose operators wrap and never trap.
//!
//! What a value is converted to, and how a variable, a field or an element begins, depends on the kind of its type alone
//! ([`ValueKind`]). Each operator here has the value of the definitions of `c_semantics`, and so does each conversion, for every
//! type of the kind. Nothing here takes memory.
//!
//! Read in this order: `kind` (kinds, zeros and conversions), `operators` (unary and binary operators, and `?:`).
#![tactic(auto)]

mod kind;
mod operators;

pub use kind::{ValueKind, converted, kind_of, zero};
pub use operators::{chosen, wrapped, wrapped_unary};
