//! The code of a text: one body for each function, in the text's order.
//!
//! [`compile`] resolves the bodies of a text's functions into a table of trees, and makes the code of each from its tree. It
//! promises that the code of each function is exactly that which the definitions give its resolved body (`specs/Code.antt` of
//! `tree_code`), so what is known of that code holds of what is made: it has the points of the function's skeleton, and does
//! between two of them what local evaluation does. Several texts that share a table are first resolved, each by [`resolve`], and
//! then [`generate`] makes the code of each.
//!
//! Read in this order: `outline` (what the code of a function is made from), `outlines` (those of a text), `body` (code), `text` (the code of a text).
#![tactic(auto)]

mod body;
mod outline;
mod outlines;
mod text;

pub use body::Body;
pub use outline::Outline;
pub use text::{compile, generate, resolve};
