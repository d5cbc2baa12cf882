//! What changes between two texts, by name.
//!
//! [`compare`] promises the three lists of a newer text as definitions have them: the names of the older text whose definition is
//! another or is gone, those of them whose interface is, and the names that only the newer text has. Instead of them it answers
//! the least name that is a function, a global or a mutex in one text and another of these in the other. Two texts take n log n
//! time in the number of their names, besides one pass over their trees. [`same_interface`] compares two definitions alone. The
//! calls of `laws` say what the three lists keep.
//!
//! Read in this order: `answer` (what is answered), `alike` (two definitions of one name), `lookup` (a name in both texts),
//! `comparison` (the whole), `laws`.
#![tactic(auto)]

mod alike;
mod answer;
mod comparison;
mod laws;
mod lookup;

pub use alike::{same_definition, same_interface};
pub use answer::{Changes, CompareFault};
pub use comparison::compare;
pub use laws::{lists_are_ordered, same_text_changes_nothing};
