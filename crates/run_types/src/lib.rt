//! The plain types in which a run is told: its events and endings, what its threads wait for, and its traps.
//!
//! The types carry no behaviour of their own but the trap that an operator's trap becomes.
//!
//! Read `trap`, then `run`. `specs/Skeleton.antt` is what is left of a function where only the order and the
//! names of its stops count, `specs/CheckIns.antt` has the kinds of check-ins.
#![tactic(auto)]

mod run;
mod trap;

pub use run::{Ending, Event, Wait};
pub use trap::TrapKind;
