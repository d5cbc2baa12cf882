//! The journal of a run as a text: its slots and events, from which the run can be repeated.
//!
//! A text of version 2 has one line for all moves of one thread in a row, one of version 1 a line for each event.
//! `print_journal` puts the text of version 2 into a sink, or a prefix of it where the sink fails, and takes no
//! memory. `read_journal` gives the slots and events of a text of either version, each event with the number of its
//! line, or the text's first fault. Both answers are exactly those that `specs/Journals.antt` defines, unless memory
//! runs out. `specs/Laws.antt` says that what is printed is read back, that a journal which is read and printed is
//! the same journal, and which lines there are; the calls of `laws` carry these laws.
//!
//! Read in this order: `fault` (why a text is no journal), `form` (the first line), `number`, `line` (one line),
//! `print`, `read`, `laws`.
#![tactic(auto)]

mod fault;
mod form;
mod laws;
mod line;
mod number;
mod print;
mod read;

pub use fault::JournalFault;
pub use laws::{
    event_lines_are_exact, moves_in_a_row_are_one_line, printed_is_read, read_is_read_again,
};
pub use print::print_journal;
pub use read::{Journal, journal_slots, read_journal};

/// The most events of a journal.
pub const MOST_EVENTS: u32 = 4 * 1024 * 1024;
