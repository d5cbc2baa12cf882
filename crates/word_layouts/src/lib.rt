//! The words of objects, brought to the newest layouts of their structs.
//!
//! A compiled run keeps an object as words, with the number of the version whose layout they have. An install leaves all objects as
//! they are. [`WordLayouts`] keeps what changes the objects of each struct from version to version, and [`WordLayouts::bring`] makes
//! these changes in an object when it is used, each once and in the order of the versions. Its contract says that the object's words
//! then stand for the fields that it would have if each install had changed it at once (`specs/WordChanges.antt`, and `Layouts` of
//! `code_runs`). It takes no memory. Where the object has the newest layout it makes one comparison; else it looks once at each version
//! since the object's own, and makes a step for each change of the struct.
//!
//! A transform may compare handles, and copies them. So the values that it is applied to have each object under its own word, and it is
//! enough that different objects have different words.
//!
//! [`prepare`] makes what an install changes from the layouts of both texts ([`Layout`], and `specs/TextLayouts`) and the changes of data,
//! and [`WordLayouts::add`] makes that the newest version. A global whose type changes gets the words of its new cells by
//! [`cells_after`].
//!
//! Read in this order: `words` (words as values, and back), `change` (what changes the objects of a struct), `step` (one change),
//! `layouts` (the changes of all versions), `copies` (copies of transforms), `layout` (the structs of a text), `preparation` (what an
//! install changes), `cells` (globals).
#![tactic(auto)]

mod cells;
mod change;
mod copies;
mod layout;
mod layouts;
mod preparation;
mod step;
mod words;

pub use cells::cells_after;
pub use change::{Conversion, WordChange};
pub use layout::Layout;
pub use layouts::{VersionChanges, WordLayouts};
pub use preparation::prepare;
