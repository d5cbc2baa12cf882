//! The data of a run after an install of a newer text.
//!
//! [`prepare`] makes the new data beside the old, so that an install that runs out of memory changes nothing;
//! [`NewData::put_into`] puts it in place. How an install finds the change of a struct is given by itself, for those who keep
//! objects in another form: [`table_of`] and [`transform`] find a new layout among the changes of data, and [`is_new`] says whether
//! a struct without one has zeros.
//!
//! Read in this order: `changes` (changes of data by name), `globals` (the new cells of globals), `install` (objects, holders and
//! the whole).
#![tactic(auto)]

mod changes;
mod globals;
mod install;

pub use changes::{Data, table_of, transform};
pub use install::{is_new, prepare};
