//! The rows of check-ins: for each check-in of a flow and for the start of each function three sets of names. These are what
//! a thread may have used in its transaction, what it may still use there, and what its frames may use directly, over all
//! points that it may come to up to the next check-in.
//! [`rows_of`] takes a flow and its effects and gives exactly the rows that the crate `effects` defines (`specs/Rows.antt`, by
//! `AreRowsOf`). A row has a number, which never changes when bodies are added to the flow ([`numbers_stay`]), and each
//! different row is kept once. A reader has to believe `specs/Rows.antt` and `specs/Marks.antt`; the other files of `specs/`
//! are what the private steps promise one another.
//!
//! The sets are the least solution of inclusion constraints over points and functions, solved by `set_constraints` once for
//! each kind of effect: a point has its own names, and to them come those of the points to which a path leads from it.
//!
//! Read in this order:
//! - [`row`]: the numbers of rows, and what has a row
//! - [`nodes`]: the numbers of what has a set
//! - [`constraints`]: the edges of the system of constraints
//! - [`solution`]: the sets of the nodes
//! - [`entries`]: the marks of a flow, in the order of their numbers
//! - [`gathering`]: the row of each mark, and the different rows among them
//! - [`rows`]: the rows of a flow
//! - [`laws`]: that numbers stay
#![tactic(auto)]

mod constraints;
mod entries;
mod gathering;
mod laws;
mod nodes;
mod row;
mod rows;
mod solution;

pub use con_freeness::Row;
pub use laws::numbers_stay;
pub use row::{Mark, RowId};
pub use rows::{Rows, rows_of};
