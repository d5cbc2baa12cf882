//! What an accepted text promises of the bodies that it brings.
//!
//! It is laws, above those of types and of accepted texts. No function of an accepted text uses a name at its points that the text
//! doesn't define (`specs/DefinedUses`), so a table with the text's names has each name that a body of it needs. And as the first
//! version its bodies have room in a store (`specs/BodyRoom`). What needs the bodies of an accepted text cites these, and then
//! answers out of memory for lack of memory alone.
#![tactic(auto)]

mod laws;

pub use laws::{accepted_texts_define_each_use, accepted_texts_have_room};
