//! What is left of a function's code where only the order and the names of its stops count, as a value: the points at
//! which a thread stops or checks in, and between which of them control may go.
//!
//! Names are ids of a table of names, so a skeleton means one of the definitions (`specs/Skeleton.antt` of `run_types`)
//! only with the table's texts: `specs/Meaning.antt` says which one. Each method promises what it answers of the value
//! itself, and what the answer says of its meaning under every table.
//!
//! Read in this order: `point` (what a point is), `skeleton` (points, and the ways between them).
#![tactic(auto)]

mod point;
mod skeleton;

pub use point::{CheckInKind, Point, PointKind, Use};
pub use skeleton::Skeleton;
