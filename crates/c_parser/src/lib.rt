//! The parser of whole texts, and the laws of the grammar for them.
//!
//! [`parse`] reads the program that a text's tokens are, or reports the first token that doesn't fit or is too
//! deep. It takes each token once and descends with the depth of the text alone: lists are loops.
//!
//! `specs/TextPlans.antt` says what is wanted next in a text, token by token, and how to go on with what was
//! read; it is on the plans for expressions of `c_expr_parser`. `specs/Parts.antt` has the parts that
//! single functions carry out. `proofs/` shows that the plans read whatever the grammar reads, and so that a
//! text is read in one way alone.
#![tactic(auto)]

mod ahead;
mod block;
mod control;
mod declaration;
mod function;
mod global;
mod item;
mod laws;
mod members;
mod node;
mod opening;
mod parameters;
mod parser;
mod push;
mod simple;
mod statement;
mod transformer;

pub use c_expr_parser::SyntaxFault;
pub use laws::{one_program, program_depth};
pub use parser::parse;
