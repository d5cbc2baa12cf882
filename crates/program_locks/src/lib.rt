//! The mutexes that the threads of a compiled run share: who holds each, by the number of its name.
//!
//! Contracts see the list of holders, and each clause is an equation on it. What a call answers is what the source machine
//! does there. Memory is taken when the list is made, and each call takes the same time whatever the number of names.
//!
//! Read [`answer`], then [`locks`].
#![tactic(auto)]

mod answer;
mod locks;

pub use answer::LockAnswer;
pub use locks::{Locks, MOST_SLOTS};
