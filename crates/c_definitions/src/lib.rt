//! What a text declares: its definitions by name, and what a name stands for.
//!
//! [`Known`] has the definitions of a text with tables of their names, and promises that what it finds is what the definitions
//! of `specs/Lookup` find by going through the text: the definition of a name, of a tag, the type of a member. The tables are
//! built once, in time linear in the text. [`Names`] adds the variables of the blocks round a place.
//!
//! Read in this order: `key` (what definitions are found by), `known`, `lookup`.
#![tactic(auto)]

mod key;
mod known;
mod lookup;

pub use key::{Key, key_of};
pub use known::Known;
pub use lookup::{Meaning, Names, Position, defined, meaning_in, members_in, name_of};
