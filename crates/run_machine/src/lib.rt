//! Machines that run texts, for engines that are written once over any of them.
//!
//! A [`Machine`] is a run of the first of some texts, move by move; the others may be installed while it runs. What its
//! contracts say is a relation between a machine and the moves that were made (`Shown`), so a machine keeps of a run what it
//! likes. The source machine is one (`source`). A [`LeavesWork`] is one whose private work can be done elsewhere (`work`).
#![tactic(auto)]

mod machine;
mod source;
mod work;

pub use machine::{Machine, MoveMade, Moved};
pub use source::NoWork;
pub use work::LeavesWork;
