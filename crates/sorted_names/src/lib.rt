//! The names that a text defines, in the order of their bytes.
//!
//! [`names_in_order`] promises the set of them as definitions have sets of names: the list of their texts in the order of
//! bytes, each once. It takes n log n time in their number.
//!
//! `names` has it all.
#![tactic(auto)]

mod names;

pub use names::names_in_order;
