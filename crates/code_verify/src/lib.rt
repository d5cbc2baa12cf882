//! A verifier of function code.
//!
//! [`verify`] promises that a body which it passes is well formed (`specs/WellFormed.antt` of `code_kinds`), with the height of
//! the stack at each place; and that it names the first instruction that breaks a body otherwise. So code that was verified
//! finds the words and variables that it takes, whoever made it. One pass over the code, in the order of its places, brings the
//! shape of each place to those to which control goes from there; it finds the greatest shapes that fit, in time linear in the
//! code times the depth of its stack.
//!
//! Read in this order: `source` (what is handed in and out), `shape`, `words` and `stack` (shapes as values), `names` (what a
//! text says of a name), `stops`, `private` and `after` (what an instruction makes of a shape), `ways` (where control goes),
//! `keeps` (what loops begin with), `meeting` and `carry` (a shape that comes to a place), `verifier` (the pass), and `laws`.
#![tactic(auto)]

mod after;
mod carry;
mod keeps;
mod laws;
mod meeting;
mod names;
mod private;
mod shape;
mod source;
mod stack;
mod stops;
mod verifier;
mod ways;
mod words;

pub use laws::a_body_breaks_at_one_place;
pub use source::{Body, Source, Verified, VerifyFault};
pub use verifier::verify;
