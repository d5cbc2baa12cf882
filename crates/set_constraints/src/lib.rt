//! The least solution of inclusion constraints between sets of names. Each node has a set, and an edge says that the set
//! of one node contains that of another. [`least_sets`] takes the names that each node has by itself, its seed, and the
//! edges, and gives the least sets that contain the seeds and meet each edge. Its contract says exactly which names each
//! set has, by the relation `Reaches` of `specs/Constraints.antt`: a name comes to a node from the node's own seed, or over
//! an edge. The law [`sets_are_least`] shows that these are the least sets. A reader has to believe `Constraints` and
//! `Laws`; the other files of `specs/` are what the private steps promise one another.
//!
//! Read in this order:
//! - [`constraint`]: edges, and the order in which nodes are looked at
//! - [`links`]: the edges that leave each node, as chains
//! - [`walk`]: the order in which nodes are looked at
//! - [`queue`]: the nodes whose sets have yet to be passed on
//! - [`solution`]: the least sets
//! - [`net`]: edges that are made ready to be solved, for one family of seeds or several
//! - [`laws`]: what shows that the definition says what is meant
#![tactic(auto)]

mod constraint;
mod laws;
mod links;
mod net;
mod queue;
mod solution;
mod walk;

pub use constraint::{Edge, Order};
pub use laws::sets_are_least;
pub use net::{Net, least_sets};
