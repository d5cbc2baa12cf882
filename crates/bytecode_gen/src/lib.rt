//! The code of statements and of functions' bodies, emitted from resolved trees.
//!
//! [`body_code`] promises that the code that it gives is exactly what the definitions give the body (`specs/Code.antt` of
//! `tree_code`). Statements are emitted from the last to the first, so that the length of each jump is known when it is
//! emitted; only a back edge, which leads to the beginning of its loop, is set afterwards. A tail has the code from some
//! place to the end of the function. The code of an expression is made forwards, in a list of its own, and then put in front.
//!
//! Read in this order: `tail` (code that grows at its beginning), `part` (expressions, conditions and declarations),
//! `statement` (the walk over statements) and `body` (a function's code).
#![tactic(auto)]

mod body;
mod part;
mod statement;
mod tail;

pub use body::body_code;
pub use part::Source;
