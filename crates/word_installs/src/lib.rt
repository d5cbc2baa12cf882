//! The install of a newer text in what the threads of compiled code share.
//!
//! Globals and arrays whose type changes get new words at once, mutexes that are gone lose their holder, and objects stay as they are:
//! before a stop uses a field, [`freshen`] brings its object to the layout of the text in force. [`prepare_rows`] takes the memory that
//! an install needs and changes nothing; [`install`] then takes none and can't fail. So an install is made whole or not at all. Each
//! does exactly what the definitions of runs of code say (`Layouts` and `CodeInstalls` of `code_runs`).
//!
//! Nothing is looked up by name when an install is made, but for the changes of data, which go by names. What a text has is handed by
//! the numbers of the names of all texts of a run: see [`TextRow`].
//!
//! Read `specs/TextRows`, `specs/NewRows` and `specs/Prepared`; then `field_stops` (objects), `changes` (changes by name), `rows` (what is
//! prepared), and `placing` (the install).
#![tactic(auto)]

mod changes;
mod field_stops;
mod placing;
mod rows;

pub use field_stops::freshen;
pub use placing::install;
pub use rows::{NewRow, TextRow, prepare_rows};
