//! What an operator can do about a patch: lines that follow the line of its offer in a report. After an install they say which
//! old data became zero, which threads are still in functions that changed, and which changed initialisers have no effect. Where
//! the text is no patch, they say which limit, name or transformer is in the way.
//!
//! The two public calls promise the form alone (`specs/Notes.antt` of `fault_notes`): what they add to notes are notes, lines
//! after a mark. What the lines say is tested. Each call takes time about linear in the two texts. What a note lacks, as a name
//! that a text doesn't define, is left out.
//!
//! Read in this order:
//! - [`types`]: types as texts write them; [`zeros`]: data that became zero; [`initials`]: changed initialisers; [`still`]:
//!   threads in old code; [`install`]: the notes of an install
//! - [`sorts`]: what a name is; [`fault`]: the fault of a transformer; [`no_patch`]: the notes where there is no patch
#![tactic(auto)]

mod fault;
mod initials;
mod install;
mod no_patch;
mod sorts;
mod still;
mod types;
mod zeros;

pub use install::add_install_notes;
pub use no_patch::add_no_patch_notes;
