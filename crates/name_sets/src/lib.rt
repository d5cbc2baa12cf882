//! Names and sets of names. A [`Names`] is a table of texts, in which each text has one [`NameId`],
//! its place; contracts see the table as the list of its texts. A [`NameSet`] is a set of such ids in
//! a fixed row of bits, which takes no memory; contracts see it by its members, and each call promises
//! exactly what the operation on sets does. `specs/NameLists.antt` has sets of names as lists of their texts, for definitions
//! above that have no table.
//!
//! - [`id`]: the numbers that stand for names
//! - [`table`]: the table of texts
//! - [`set`]: sets of ids
//! - [`words`]: the words of a set, one and eight at a time
//! - [`least`]: the search for the least common name
#![tactic(auto)]

mod id;
mod least;
mod set;
mod table;
mod words;

pub use id::{MOST_NAMES, NameId};
pub use set::NameSet;
pub use table::{Names, NamesFault};
