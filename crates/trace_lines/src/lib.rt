//! The lines of a trace: for each event of a journal one line, with its line in the journal, the event, and what it did.
//!
//! [`add_line`] promises the bytes of a line exactly (`specs/Lines.antt`), by what is known of the event, which are its [`Facts`].
//! Who makes such lines says in its own contract where the facts come from.
//!
//! A [`Window`] says which events are shown; `specs/Windows.antt` has what a trace is.
//!
//! Read in this order: `facts` (what is known of an event), `words` (what a thread does, in words), `line` (the line), `window` (which
//! events are shown).
#![tactic(auto)]

mod facts;
mod line;
mod window;
mod words;

pub use facts::{Act, After, Facts, Where};
pub use line::add_line;
pub use window::Window;
