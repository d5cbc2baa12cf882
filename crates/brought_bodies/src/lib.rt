//! The bodies that a newer text brings: what an install adds to the store of bodies.
//!
//! A text that follows another brings a body for each function that the other doesn't define, that is changed, or that uses
//! directly a name whose interface changes. [`brought`] promises exactly the bodies that the definitions name
//! (`specs/Store.antt` of `c_semantics`), in the order of the text, by the texts of a table of names; [`first_bodies`] those
//! of a text that follows none. Which names change is given, as sets of ids (`specs/Sets.antt`).
//!
//! Read in this order: `fault` (why there are none), `skeleton` (the skeleton of a function), `uses` (whether a skeleton uses
//! a name of a set), `patch` (which functions get a new body), `bodies` (those of a whole text).
#![tactic(auto)]

mod bodies;
mod fault;
mod patch;
mod skeleton;
mod uses;

pub use bodies::{brought, first_bodies};
pub use fault::BodyFault;
pub use skeleton::skeleton_in;
