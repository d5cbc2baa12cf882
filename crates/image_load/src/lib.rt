//! The code of the texts of a run as threads execute it, made when the run begins.
//!
//! [`load`] compiles and verifies each function of each text, looks up each name that a stop uses, and promises that the image which it
//! gives is that of the texts (`specs/Images` of `code_image`), with the words of the first cells of the first text's globals and arrays,
//! and with the tables that installs need. Names are numbered once for all texts. So whoever executes the image looks up no name. Of
//! accepted texts the fault is lack of memory alone, where all mutexes and tags have numbers, which [`has_few_names`] says beforehand.
//!
//! Read `specs/Loaded` and `specs/TextTables`; then `fault` (why texts aren't loaded), `tables` and `numbers` (numbers of names), `bodies` (the code of the
//! texts), `callees` (the names of functions), `names` (what the names of a text mean), `fields` (places of fields), `shared_stops`, `acts` and `stops` (what is done at a stop, and where it goes on),
//! `kinds` (the words of a function), `functions`, `body_rows` (functions by their names), `texts` (the functions of all texts), `lengths` (the longest print), `stacks` (the
//! highest stack), `cells` (first cells), `text_data` and `text_tables` (what installs need), and `loading`.
#![tactic(auto)]

mod acts;
mod bodies;
mod body_rows;
mod callees;
mod cells;
mod fault;
mod fields;
mod functions;
mod kinds;
mod lengths;
mod loading;
mod names;
mod numbers;
mod shared_stops;
mod stacks;
mod stops;
mod tables;
mod text_data;
mod text_tables;
mod texts;

pub use fault::LoadFault;
pub use loading::{LoadedCode, load};
pub use numbers::{accepted_text_has_few_names, has_few_names};
pub use text_data::TextData;
