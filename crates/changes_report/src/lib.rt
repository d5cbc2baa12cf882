//! The text of what changes between two texts: which names, and how old objects and globals become new ones; or why the newer
//! text is no patch of the older one.
//!
//! [`write_changes`] promises that what it writes is the text of `specs/ChangesText.antt`: all of it, or a shorter prefix of it
//! where the sink failed, and nothing when out of memory. The names and the transforms are those of `patch_compare` and
//! `type_transformers`, so the text says what an install does. The text is put together in memory and handed to the sink at
//! once.
//!
//! Read in this order: `lines` (the lines of names and of how values come), `transforms` (the lines of structs and globals),
//! `refused` (why there is no patch), `output` (the whole).
#![tactic(auto)]

mod lines;
mod output;
mod refused;
mod transforms;

pub use output::write_changes;
