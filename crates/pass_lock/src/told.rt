//! What a lock's value tells of its past, for contracts alone.
ghost use Rattle.std.specs.Prelude.{List};
ghost use Rattle.pass_lock.specs.declared.notes.Entry.{Entry};
ghost use Rattle.pass_lock.specs.declared.notes.Notice.{Notice};

/// A value that can be locked. Its history is a list of entries, and each names the number of the pass that made it.
pub trait Told {
    /// What an entry says. A type for clauses: no value of it needs to be made.
    type What;

    ghost history: { Self → List (Entry Self.What) };

    // What an entry tells of offers and threads, in order. Most entries tell nothing.
    ghost notices: { Self.What → List Notice };
}
