//! Tests of the crates that run programs: of the schedules and the order of events in `dsu_runs`, over two small engines, and
//! of the engines below them.
//!
//! - `tiny`: the smallest engine, whose run is known
//! - `scripted`: an engine that follows a script, with offers
//! - `runs`: what a run that has ended is compared with
//! - `schedules`: the schedules, over `tiny`
//! - `offers`: the order of events, over `scripted`
//! - `texts`: texts that have no fault, and offers of them
//! - `plain` and `compiled`: both engines of a text with offers
//! - `program_runs`: what small texts print, how they end and which events are made, what the threads of a deadlock wait for, and
//!   a sink that fails, by both engines
//! - `turns`: the order in which sixteen threads act
//! - `offered_runs`: what becomes of offers of newer texts, by both engines
#![tactic(auto)]

#[cfg(test)]
mod compiled;
#[cfg(test)]
mod offered_runs;
#[cfg(test)]
mod offers;
#[cfg(test)]
mod plain;
#[cfg(test)]
mod program_runs;
#[cfg(test)]
mod runs;
#[cfg(test)]
mod schedules;
#[cfg(test)]
mod scripted;
#[cfg(test)]
mod texts;
pub mod tiny;
#[cfg(test)]
mod turns;
