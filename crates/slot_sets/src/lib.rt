//! Sets of slots. A [`SlotSet`] is a row of 32 bits, which takes no memory; contracts see it by its members. The first member from
//! a slot on is found at once, however many slots lie between.
//!
//! - `specs/Members`: the members of a set
//! - [`set`]: the sets
#![tactic(auto)]

mod set;

pub use set::{MOST_SLOTS, SlotSet};
