//! What each run has whatever makes its events: offers that were read, the engine that was asked for, and a report.
//!
//! [`offers_in`] reads the files of offers, or answers the first fault with its file. [`engine_for`] takes the engine that was
//! asked for, unless the names of the texts are too many for code. [`report_run`] reports what came of a run, on any engine: if the
//! engine made the events of a plan up to why it made no further one, the call is one of the cases of `Came` in `job_answers`.
//! [`outcome_of`] hands back what the engine left, where the run ended and was reported.
//!
//! Read in this order: `specs/Offers` and `specs/Schedules` (what the calls say); `offers`, `engines`, `unstarted` (a run that didn't
//! start), `report` (what is printed), `finish` (a run at its end), `left` (what is handed back).
#![tactic(auto)]

mod engines;
mod finish;
mod left;
mod offers;
mod report;
mod unstarted;

pub use engines::engine_for;
pub use finish::{Finish, report_run};
pub use left::outcome_of;
pub use offers::{Offers, add_offer, no_offers, offers_in};
pub use report::write_run;
pub use unstarted::stop_before;
