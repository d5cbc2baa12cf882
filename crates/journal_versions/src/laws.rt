//! What the definitions of a journal promise, each as the contract of a call that does nothing.

ghost use Rattle.journal_versions.specs.Laws.{EventLinesAreExact, MovesInARowAreOneLine, PrintedIsRead, ReadIsReadAgain};

/// A line is an event, or several moves, exactly if it is the line with which that is printed, and that may be in a journal.
pub fn event_lines_are_exact()
    ensures { EventLinesAreExact }
{}

/// Slots and events that may be in a journal are read as they were printed.
pub fn printed_is_read()
    ensures { PrintedIsRead }
{}

/// The slots and events of any journal are read again from the text with which they are printed.
pub fn read_is_read_again()
    ensures { ReadIsReadAgain }
{}

/// The groups whose lines are printed are the events in order, and no two neighbours are moves of one thread.
pub fn moves_in_a_row_are_one_line()
    ensures { MovesInARowAreOneLine }
{}
