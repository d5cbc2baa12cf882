//! What is wrong where a text has a type other than the one expected: which types met.
//!
//! [`wrong_type`] goes to the place of such a fault with the variables that are in scope there, as the check of types does, and
//! says which operand, argument, value or prototype is wrong, what was expected of it, and what was found. [`wrong_transformer`]
//! does so for the transformers of a text that follows an older one: there `old` is a variable, or each of its fields is one.
//! Types are written as in C. Nothing is proved of what is said, but that it takes no step that could fail except for memory;
//! what is said is tested.
//!
//! The time is linear in the length of the text, times the logarithm of the depth of the expression.
//!
//! Read in this order: `draft` (a message that is put together), `words` (types and operators as texts write them), `places` (the
//! definition and the expression with a place), `bodies` (the same in a function's body), `parts` (the parts of an expression
//! with a place), `found` (what an expression is found to be), `operands` and `calls` (what a form of expression expects),
//! `prototypes`, `wrong_types` (a text), `old` (`old` as variables), `transformers` (the transformers of a text).
#![tactic(auto)]

mod bodies;
mod calls;
mod draft;
mod found;
mod old;
mod operands;
mod parts;
mod places;
mod prototypes;
mod transformers;
mod words;
mod wrong_types;

pub use draft::Draft;
pub use transformers::wrong_transformer;
pub use words::integer_words;
pub use wrong_types::wrong_type;
