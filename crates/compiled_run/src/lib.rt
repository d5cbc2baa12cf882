//! Runs of compiled code.
//!
//! [`CompiledRun`] is a run of some texts: its threads execute the code of the first, and after an install that of a newer one where
//! they enter a function. Yet its clauses are those of the source machine, which a machine of `run_machine` owes. After any steps and
//! installs it is the source machine's run over the moves that were made, with the same output, the same threads at the same points,
//! and the same end.
//!
//! Read `specs/CodeOfRuns` (what ties code to a run), `specs/Needs` (what it needs of the run) and `specs/Compiled`; then `run` (the
//! start and the moves), `installs`, `machine` (what an engine asks) and `work` (private work that is left for later).
#![tactic(auto)]

mod installs;
mod machine;
mod run;
mod work;

pub use run::CompiledRun;
