//! What explains the first fault of a text: three lines, each after a mark. The first is the line of the text where the fault
//! is, the second has a caret below its column, and the third says what is wrong there and what would have been right.
//!
//! [`notes_of`] promises the form alone (`specs/Notes.antt`): whatever the text has in it, the notes are lines that begin with
//! the mark and have no further newline, so a reader of a report can pass over them. Of a syntax fault [`expected`] says
//! exactly which tokens could have come at its place (`specs/Expected.antt`), by the grammar. What the other lines say is
//! tested.
//!
//! Memory is needed for the tokens and the tree of the text, which are made once more. The time is linear in the length of the
//! text, but for the tokens that could have come: each of a few is tried, in linear time.
//!
//! Which types met where one is wrong is said by `type_notes`, whose messages are put together here too.
//!
//! Read in this order: `lines` (lines after a mark), `excerpt` (the line of the text and the caret), `lexical`, `syntax` (with
//! `following`, the tokens that fit), `names`, `calls`, `limits` and `types` (messages by the kind of fault), `notes` (the
//! whole).
#![tactic(auto)]

mod calls;
mod excerpt;
mod following;
mod lexical;
mod limits;
mod lines;
mod names;
mod notes;
mod syntax;
mod types;

pub use excerpt::{Excerpt, excerpt_of};
pub use following::expected;
pub use lines::{add_line, lines_end};
pub use notes::notes_of;
