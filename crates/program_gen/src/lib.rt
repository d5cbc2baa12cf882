//! Programs made from a number: a text with as many functions as wanted, and an offer that changes one of
//! them.
//!
//! [`generate`] promises that its two texts are exactly those that `specs/Generated.antt` defines, unless
//! memory runs out. So a seed and a size stand for a program and its offer. `specs/Laws.antt` says what
//! these programs call; the call of `laws` carries that law.
//!
//! Read in this order: `draws` (numbers from a seed), `functions` (what is drawn for each function), `texts`
//! (the lines), `laws`.
#![tactic(auto)]

mod draws;
mod functions;
mod laws;
mod texts;

pub use laws::calls_are_defined;
pub use texts::generate;
