//! Notes about where the threads of a run are: for each call of a thread one line, with the place in the text of its version.
//!
//! [`add_thread`] adds the lines of a thread: where its innermost call stops next, or which function it enters, and from where
//! each call was made, the innermost first. [`ending_notes`] has the notes that follow the lines of an ending. Both promise the
//! form alone: whatever names and texts have in them, they are lines that begin with the mark and have no further newline
//! (`AreNotes` of `fault_notes`). The places of a function's points, among which a line's place is looked up, are proved to be
//! those of the definitions (`specs/Mapped.antt`); that a line shows the place of its own point is tested, as is the rest.
//!
//! The engine is one that the events of a run were replayed on, so nothing here is done at an event. The places of a text are
//! found once, at the first line that needs one of them.
//!
//! Read in this order: `source` (a text as its reader has it), `places` (the places of points), `calls` (the calls of a thread),
//! `line` (the line of a call), `thread`, `ending`.
#![tactic(auto)]

mod calls;
mod ending;
mod line;
mod places;
mod source;
mod thread;

pub use ending::{MARK, ending_notes};
pub use places::Places;
pub use source::Source;
pub use thread::add_thread;
