//! Tests of `compiled_run`: the code of texts beside the source machine, move by move.
//!
//! - `pair`: both machines of some texts, and whether they answer alike
//! - `texts`: texts, with each construct and each stop of the language
//! - `runs`: moves of the threads of these texts in many orders
//! - `installs`: newer texts that are installed while both go on
#![tactic(auto)]

#[cfg(test)]
mod installs;
#[cfg(test)]
mod late;
#[cfg(test)]
mod pair;
#[cfg(test)]
mod runs;
#[cfg(test)]
mod texts;
