//! The journal of a run as a text: one line for each event, from which the run can be repeated.
//!
//! `print_journal` puts the text of events into a sink, or a prefix of it where the sink fails, and takes no
//! memory. `read_journal` gives the events of a text, each with the number of its line, or the text's first
//! fault. Both answers are exactly those that `specs/Journals.antt` defines, unless memory runs out.
//! `specs/Laws.antt` says that printed events are read back and that an event has one line only; the calls of
//! `laws` carry these laws.
//!
//! Read in this order: `fault` (why a text is no journal), `line` (one line), `print`, `read`, `laws`.
#![tactic(auto)]

mod fault;
mod laws;
mod line;
mod print;
mod read;

pub use fault::JournalFault;
pub use laws::{event_lines_are_exact, printed_is_read};
pub use print::print_journal;
pub use read::read_journal;
