//! From the trees of a text to the table of resolved trees.
//!
//! [`resolve_body`] adds a function's body: it promises that the number which it gives means the body as the definitions resolve
//! it, in every table that the present one grows to. Each function says so of its result, so that a number that was handed out
//! never has to be looked at again.
//!
//! Read in this order: `known` (what names mean), `types`, `found` (expressions as they are resolved), `operator` and `names`
//! (what is made of them), `form`, `expression`, `block`, `statement`.
#![tactic(auto)]

mod block;
mod expression;
mod form;
mod found;
mod known;
mod names;
mod operator;
mod statement;
mod types;

pub use block::statements;
pub use found::{value_type, word};
pub use known::name_of_struct;
pub use statement::resolve_body;
