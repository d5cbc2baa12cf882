//! Whether a text that is offered is a patch of the versions so far, and what it brings if it is.
//!
//! [`prepare`] promises the first cause for which the text is no patch, as definitions have it (`specs/Patches.antt` of
//! `source_model`), over whatever texts the versions are texts of. For a patch it promises that there is no cause, and gives
//! what an install needs: the names with those of the new text, in which old names keep their ids; the names whose
//! definitions and whose interfaces change, as sets of ids; the bodies that the text brings, which can be added to the store;
//! and how old data becomes new. It takes n log n time in the number of names, besides what the bodies take.
//!
//! Read in this order: `fault` (why there is no patch), `patch` (the versions and a patch), `table` (the names), `sets` (names
//! as sets of ids), `offer` (the whole).
#![tactic(auto)]

mod fault;
mod offer;
mod patch;
mod sets;
mod table;

pub use fault::PatchFault;
pub use offer::prepare;
pub use patch::{MOST_VERSIONS, Patch, Versions};
