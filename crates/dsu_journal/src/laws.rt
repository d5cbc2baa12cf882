//! What the definitions of a journal promise, each as the contract of a call that does nothing.

ghost use Rattle.dsu_journal.specs.Laws.{EventLinesAreExact, PrintedIsRead};

/// A line is an event exactly if it is the line with which that event is printed, and the event may be in a journal.
pub fn event_lines_are_exact()
    ensures { EventLinesAreExact }
{}

/// Events that may be in a journal are read as they were printed, each with the number of its line.
pub fn printed_is_read()
    ensures { PrintedIsRead }
{}
