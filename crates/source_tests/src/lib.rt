//! What no clause of `source_runner` and `recorded_runs` says: that runs begin and go on with ample memory, and that they
//! mean what C means. Texts are read from C, and runs are made by the public calls.
//!
//! Read in this order: `checks` (runs over texts, and what they must do), `runs` (texts, with what each prints and how it
//! ends), `moves` (what is asked of a run between its moves, and threads that share objects and mutexes), `installs`
//! (newer texts that are installed while a run goes on), `misuses` (what old code uses that is no longer what it was),
//! `queries` (where a thread stands and what its next move uses), `spans` (the versions that the definitions of transactions
//! share), `evaluation` (where a thread's private work stops).
#![tactic(auto)]

#[cfg(test)]
mod checks;
#[cfg(test)]
mod evaluation;
#[cfg(test)]
mod installs;
#[cfg(test)]
mod misuses;
#[cfg(test)]
mod moves;
#[cfg(test)]
mod queries;
#[cfg(test)]
mod runs;
#[cfg(test)]
mod spans;
