//! The types of expressions, and what they need.
//!
//! `specs/Expressions` has the rule of each form of expression: what it is, given its parts, or its faults in their order.
//! [`infer`] finds what an expression is, exactly by these rules, under the definitions of a text and the variables in scope.
//! [`need`] is how many values its evaluation holds at most.
//!
//! Read in this order: `fault` (what may be wrong with a text that was read, and which of two faults is reported), `found` (what
//! an expression may be, and what may be required of it), `format` (formats of `printf`), `expression` (the rules by themselves),
//! `infer_node` (each form of expression by its parts), `shape` (the forms by their number of parts), `inference` (an expression
//! whole), `room` (how many values it holds).
#![tactic(auto, using(crate::proofs::Firsts::first_append))]

mod expression;
mod fault;
mod format;
mod found;
mod infer_node;
mod inference;
mod room;
mod shape;

pub use expression::{fits, is_safe, unknown_tag};
pub use fault::{Fault, TypeFault, TypeKind, sooner, unless};
pub use found::{Found, Part, same};
pub use inference::infer;
pub use room::{MOST_NEED, need};
