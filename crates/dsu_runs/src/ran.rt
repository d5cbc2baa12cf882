use run_types::{Ending, Event};

/// Why a schedule made no further event.
#[derive(Clone, Copy, Debug, PartialEq, Eq)]
pub enum StopCause {
    /// The run ended so.
    Ended(Ending),
    /// Not all that the last event printed could be written.
    SinkFailed,
    /// The event of that line of the journal can't happen.
    CannotHappen(u32),
    /// Out of memory.
    Memory,
    /// The decision of that line of the journal isn't made, since a definition was misused. No run of accepted texts comes
    /// there.
    Misused(u32),
    /// The decision of that line of the journal isn't made, since a function of the text of the offer that it decides uses a
    /// name that this text doesn't define. No accepted text has one.
    UndefinedName(u32),
}

/// What a schedule hands back.
#[derive(Drop)]
pub struct Ran<E> {
    pub engine: E,
    /// The events that were made, the first one first.
    pub history: Vec<Event>,
    pub cause: StopCause,
}
