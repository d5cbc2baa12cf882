//! The texts of a run, ready to run: what each defines by name, with the trees of all functions in one table.
//!
//! All texts that a run may install are made ready when it begins, so the table never changes afterwards. The contracts of
//! [`Programs`] say what the definitions of `c_semantics` say of the text of a version: its functions with their parameters
//! and bodies, the fields of its structs, its globals with their first values, and whether a name still has the interface
//! that it had in an earlier version. What a name means is found in one look, so it costs no more where a text defines more.
//!
//! Read in this order: `definition` (what a text defines), `places` (places by name), `resolved` (the definitions of a text
//! with their trees in the table), `ready` (a text that is ready), `constant` and `globals` (the first values of globals),
//! `frame` (what a function begins with), `versions` (the texts of the versions by number), `programs` (the texts of a run,
//! and the public calls).
#![tactic(auto)]

mod constant;
mod definition;
mod frame;
mod globals;
mod places;
mod programs;
mod ready;
mod resolved;
mod versions;

pub use definition::{Binding, Definition, Name};
pub use globals::{Cells, Globals, first_globals, found_by_name, named_cells};
pub use places::Places;
pub use programs::Programs;
