//! The versions that the definitions of transactions' records share, without tables of entries.
//!
//! By the definitions a record is a list of uses, each with the number of an entry in a table of versioned definitions, and
//! its span is the least and the greatest version to which all these entries belong. A run that says its spans keeps much
//! less. [`Began`] has for each text the names on which it differs from the one before, so it says since which version a name
//! has its definition. A [`Record`] has the greatest of these versions among its uses, the last version of the entries that
//! ended first, and its names as long as none has ended; it follows an install without taking memory. Its contract is the
//! span of the definitions.
//!
//! Read in this order: `texts` and `names` (sets of names), `differences` (on which names two texts differ), `began`, `record`, and `laws`
//! (the laws of entries on which the contracts rest, of `specs/SpanLaws`).
#![tactic(auto)]

mod began;
mod differences;
mod laws;
mod names;
mod record;
mod texts;

pub use began::Began;
pub use laws::{next_version_by_definitions, tables_follow, tables_of_runs, versions_stay};
pub use names::NameForm;
pub use record::{Record, Span};
