//! The effects of the points and functions of a store (contextual effects, POPL 2008), as sets of names. [`solve`] takes a
//! flow and gives, for each point, its prior, future and concrete effect, and for each function its standard effect: exactly
//! the least sets that the rules of the crate `effects` allow (`specs/Effects.antt`, by `AreEffectsOf`).
//!
//! Each kind of effect is the least solution of inclusion constraints over points, functions and names, solved by
//! `set_constraints`. `specs/Edges.antt` and `specs/Steps.antt` are what the private steps promise one another.
//!
//! Read in this order:
//! - [`nodes`]: the numbers of what has a set
//! - [`constraints`]: the edges of each system of constraints
//! - [`initial`]: the names that each node has by itself
//! - [`solution`]: the effects
//!
//! The equations by which each kind of effect is such a solution are in the proofs of `effects` (`Systems`,
//! `PriorEquations` and its like). Read the files of `proofs/` in this order: `Encoding` (a system whose nodes and names go by
//! numbers has the least sets of the system that it stands for), `Numbering`, `Seeds` and `Concatenations` (help for it), then
//! `PriorSystem` and its like (the edges that the code makes stand for those of the equations), `Solutions`.
#![tactic(auto)]

mod constraints;
mod initial;
mod nodes;
mod solution;

pub use solution::{Effects, solve};
