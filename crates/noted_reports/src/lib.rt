//! Reports that are explained: a report that is kept until it is written, and notes between the lines of a run's report.
//!
//! [`Report`] is a sink in memory that grows, and counts the writes for which there was no memory. [`interleave`] promises that
//! nothing but notes is added to a report, each after one of its lines (`specs/NotedReports.antt`). After which lines they come
//! is tested.
//!
//! Read in this order: `report`, `lines`.
#![tactic(auto)]

mod lines;
mod report;

pub use lines::{FAULT_MARK, interleave};
pub use report::Report;
