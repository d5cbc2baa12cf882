//! What a thread does by itself, up to its next stop.
//!
//! A thread has pieces that it has still to evaluate, values and variables ([`Work`]). [`evaluate`] takes one piece after
//! the other until a stop is the first one, where the thread meets what threads share, or until it traps. Its contract
//! is that of the definitions of `c_semantics`: it ends exactly where local evaluation ends, and leaves the pieces, the
//! values and the variables that local evaluation leaves.
//!
//! Read in this order: `value` (values and operators), `piece` (what a thread has still to evaluate), `work` (that with
//! values and variables), `evaluation` and `step`; then what a step does: `unfold` (the pieces of which trees are made),
//! `operate` (the newest values), `scopes` (variables), `jump` (`break` and `continue`), `stack` (the newest values and
//! pieces).
#![tactic(auto)]

mod evaluation;
mod jump;
mod operate;
mod piece;
mod scopes;
pub mod stack;
mod step;
mod unfold;
mod value;
mod work;

pub use evaluation::evaluate;
pub use piece::{Loop, Piece, Stop};
pub use value::{ObjectId, ThreadRef, Value};
pub use work::{Halt, Local, Work};
