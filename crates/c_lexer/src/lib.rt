//! Cuts a C text into its tokens, by the rule of the longest match, or says where the first fault stands.
//!
//! The contract of `lex` is exact: its answer is the one that `specs/Cut.antt` gives the text, and no
//! other is. Only lack of memory is left open.
//!
//! Read in this order: `token` (what a text is cut into), `unit` (what may be at a place, and how it
//! is read), `tables` (the words and punctuators), `characters`, `quotes`, `comments` and `directives` (the
//! forms of units), `scan` (the unit at a place), `lexer` (the loop over the text).
#![tactic(auto)]

mod characters;
mod comments;
mod directives;
mod lexer;
mod quotes;
mod scan;
mod tables;
mod token;
mod unit;

pub use lexer::lex;
pub use token::{LexFault, Token, TokenKind};
