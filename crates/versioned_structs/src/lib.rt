//! How the objects of a struct change where a newer text gives it another layout, as values.
//!
//! A [`Transform`] says for each field of the new layout how it comes from the fields of the old one: copied, zero, or the value of
//! a [`Formula`]. [`apply`] makes the new fields of one object. It takes no memory.
//!
//! An object has at most sixteen fields, in a fixed row ([`Fields`]).
//!
//! Read in this order: `fields` (a row of values), `formula` (expressions of transformers), `transform` (the fields of a new
//! layout).
#![tactic(auto)]

mod fields;
mod formula;
mod transform;

pub use fields::{Fields, MOST_FIELDS};
pub use formula::{Formula, FormulaNode};
pub use transform::{FieldChange, Transform, apply};
