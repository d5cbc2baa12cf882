//! The code of expressions, emitted from resolved trees.
//!
//! [`expression`] and [`effect`] promise that what they add to some code is exactly what the definitions give the tree
//! (`specs/Code.antt` of `tree_code`), and the first also which kind of word its value is. What a name means is looked up: a
//! variable's number and type among those in scope, everything else in the definitions of the text. The code is made in one
//! walk, in time linear in the tree.
//!
//! Read in this order: `context` (what is known), `kinds` (types as kinds of words), `known` (kinds by name), `variables`,
//! `constants`, `operators`, `emit` (instructions added to code), `place` (reads and writes), `jump`, `operand` (what is
//! evaluated first), `ending` (what comes after it) `walk` (the walk) and `effect_code`
//! (expressions whose values are dropped).
#![tactic(auto)]

mod constants;
mod context;
mod effect_code;
mod emit;
mod ending;
mod jump;
mod kinds;
mod known;
mod operand;
mod operators;
mod place;
mod variables;
mod walk;

pub use constants::{int, zero};
pub use context::{Context, Variable};
pub use effect_code::effect;
pub use emit::put;
pub use kinds::kind_of;
pub use variables::slot;
pub use walk::expression;
