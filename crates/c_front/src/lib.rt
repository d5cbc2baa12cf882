//! Reads a text: its bytes become a tree whose types are right, or the first fault of the text.
//!
//! The contract of [`read_text`] is exact: a text is read exactly where it is accepted, as the tree that
//! `specs/Accepted.antt` gives it, and each fault is answered exactly where it is the text's first. Only
//! lack of memory is left open. Faults come by layer: one of the tokens, wherever it stands, before each
//! of syntax, and that before each of types.
//!
//! - `fault`: what may be wrong with a text
//! - `read`: the call
//! - `laws`: what holds of every text's first fault
#![tactic(auto)]

mod fault;
mod laws;
mod read;

pub use fault::{FaultKind, TextFault};
pub use laws::faults_are_within_their_texts;
pub use read::read_text;
