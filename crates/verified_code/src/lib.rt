//! The verified bodies of a run.
//!
//! A body stands in one table with those of all versions, under its function and the version whose text brought it; one that
//! serves several versions stands there once. [`Bodies::find`] promises the first with a function and a generation, and goes
//! through no list. A [`CodeUnit`] promises by its type that its code may be executed with its heights, so bursts of it have no
//! premise on code. Nothing changes once the table is made: threads may share it.
//!
//! Read `unit`, then `places` (places by function and generation) and `bodies`.
#![tactic(auto)]

mod bodies;
mod places;
mod unit;

pub use bodies::Bodies;
pub use unit::CodeUnit;
