//! Copies of the versions so far, for work on an offer beside the run, and whether two are equal.
//!
//! An offer can be prepared by another thread while the run goes on, on copies of what preparing needs: the names of all versions
//! ([`copy_names`]) and their bodies ([`copy_store`]). Once it is prepared, [`same_names`] and [`same_store`] say whether the run
//! still has those names and bodies.
//!
//! Two tables of names are equal where they have the same texts in the same order, so ids are the same too. Two stores have the
//! same bodies where each body has the same function, version, number of tokens, points and ways as its counterpart
//! (`specs/SameBodies.antt`); what a store says of the bodies of the definitions is then said of both ([`copies_serve`]).
//! Copies and comparisons take time in the number of names and points, and comparisons take no memory.
//!
//! Read in this order: `names` (tables of names), `bodies` (bodies and lists of them), `store` (stores), `laws` (what equal stores
//! have in common).
#![tactic(auto)]

mod bodies;
mod laws;
mod names;
mod store;

pub use laws::copies_serve;
pub use names::{copy_names, same_names};
pub use store::{copy_store, same_store};
