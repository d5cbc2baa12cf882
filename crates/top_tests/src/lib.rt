//! Tests of the top layer: what no clause of its crates says, over values and texts that were chosen by hand, by their public
//! calls alone.
//!
//! - `fixtures`: the sinks and trees that several tests need
//! - `command_line`: `dsu_cli`
//! - `reports` and `answers`: `dsu_report`
//! - `effects_reports`: `effects_report`
//! - `changes`: `changes_report`
//! - `admits`: `admits_report`
//! - `files`: `input_files`
//! - `interleaved`: `noted_reports`
#![tactic(auto)]

#[cfg(test)]
mod admits;
#[cfg(test)]
mod answers;
#[cfg(test)]
mod changes;
#[cfg(test)]
mod command_line;
#[cfg(test)]
mod effects_reports;
#[cfg(test)]
mod files;
#[cfg(test)]
mod fixtures;
#[cfg(test)]
mod interleaved;
#[cfg(test)]
mod reports;
