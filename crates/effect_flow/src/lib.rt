//! The points of a store and the ways between them, as flat data.
//!
//! A [`Flow`] has the points of some bodies one after another, and a [`Way`] for each pair of points between which control
//! may go in a body; both go by numbers, so that sets over points are kept in vectors. Its contract says which flow it is:
//! that of a list of bodies as the definitions of `effects` have it, by a table of names (`specs/Flows.antt`). A body is
//! added after those that are there, and none is ever removed.
//!
//! Read in this order: `flow` (the flow and what is in it), `adding` (the points and ways of one body), `laws` (what a flow
//! says of its bodies). Crates above cite the lemmas of `proofs/FlowPoints.antt`.
#![tactic(auto)]

mod adding;
mod flow;
mod laws;

pub use flow::{Flow, FlowPoint, Way};
pub use laws::flows_are_exact;
