//! Runs of the source machine with the records of their transactions.
//!
//! By the definitions each outermost transaction records the definitions that it uses, and its span is the least and the
//! greatest version that all of them share. [`RecordedRun`] is a run of `source_runner` beside which what the spans need
//! (`version_spans`) is kept of each record, through moves and installs: its contract says that [`RecordedRun::spans`] answers
//! the spans of the definitions, those of the transactions that ended and those of the ones in progress, whatever was
//! installed and when. A run that nobody asks for them is a `SourceRun` alone, and pays nothing.
//!
//! What one move does to the records is a law over all stops ([`records_follow_moves`], `specs/MoveRecords`): its thread's
//! record is begun, has one use more, is closed or is gone, and those of other threads stay.
//!
//! Read in this order: `laws`, `records` (what is kept of the records of a world), `run`.
#![tactic(auto)]

mod laws;
mod records;
mod run;

pub use laws::records_follow_moves;
pub use run::RecordedRun;
