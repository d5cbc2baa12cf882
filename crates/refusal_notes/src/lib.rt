//! What an operator can do about a refusal of an offer: lines that follow the line of the offer in a report. They say where the
//! refusing thread is, one place where its code may still use the name that is in the way, and which check-ins of its function
//! would admit the text.
//!
//! [`add_refusal_notes`] promises the form alone (`specs/Notes.antt` of `fault_notes`): what it adds to notes are notes, lines
//! after a mark. What the lines say is tested. It takes time about linear in the texts and in the bodies of all versions, but for
//! the rows, which are computed as for a decision. What a note lacks, as a function that a text doesn't define, is left out.
//!
//! Read in this order:
//! - [`stand`]: what is known where an offer is refused
//! - [`places`]: the places of points, by line and column
//! - [`code`]: bodies by function and version
//! - [`reversed`]: ways backwards; [`search`]: the nearest use of a name
//! - [`position`]: where a thread is; [`uses`]: what it may use; [`admitting`]: which check-ins admit; [`refusal`]: the whole
#![tactic(auto)]

mod admitting;
mod code;
mod places;
mod position;
mod refusal;
mod reversed;
mod search;
mod stand;
mod uses;

pub use refusal::add_refusal_notes;
pub use stand::Stand;
