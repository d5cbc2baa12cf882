//! The objects and global cells that the threads of a compiled run share, as words.
//!
//! An object lives under a handle, a word of 64 bits, until it is ended. Contracts see the live objects as a finite map from
//! handles to objects, and the cells as a list. A handle has the number of its object's creation, so no two objects of a
//! run have the same one, and the handle of an ended object leads nowhere, also after its slot was used again. Memory is
//! taken when a store is made and when cells are reserved, never when an object is created or a cell added.
//!
//! Read in this order:
//! - [`handle`]: handles as words
//! - [`object`]: an object's words, and what the code asks of its struct
//! - [`objects`]: the objects that live
//! - [`cells`]: global cells
//! - [`laws`]: what ties handles to objects by the number of their creation
#![tactic(auto)]

mod cells;
mod handle;
mod laws;
mod object;
mod objects;

pub use cells::Cells;
pub use handle::Handle;
pub use laws::handles_name_objects;
pub use object::{MOST_FIELDS, Object};
pub use objects::Objects;
