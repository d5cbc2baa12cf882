//! What becomes of old data where a newer text follows an older one.
//!
//! [`transforms`] gives for each name whose data changes how objects or cells of the older text become those of the newer one: a
//! [`Change`] with the names in transformers' expressions resolved to places of the old layout. Its contract says that the
//! changes do what the definitions of transformers say, for all old values, and that each says of a field or a global whether it
//! is copied, zero or given (`specs/Hows.antt`); `specs/Changes.antt` says which names have a change. A newer text whose
//! transformers have a fault is refused with the first one. [`cells_after`] makes the new cells of a global; the objects of a
//! struct are changed by `versioned_structs`.
//!
//! It takes n log n time in the number of names. No tree is copied but as a formula.
//!
//! Read in this order: `layout` (places of fields), `formula` (expressions), `fields` (a struct's fields), `global` (a global's
//! cells), `newer` (what a newer text has under a name), `same_data` (whether a name's data changes), `change` (the change of a
//! name), `texts` (the whole).
#![tactic(auto)]

mod change;
mod fields;
mod formula;
mod global;
mod layout;
mod newer;
mod same_data;
mod texts;

pub use change::Change;
pub use global::{GlobalChange, cells_after};
pub use texts::transforms;
