//! Why a text is no journal.

use std::alloc::AllocError;

/// Why a text is no journal, or isn't read.
#[derive(Clone, Copy, Debug, PartialEq, Eq)]
pub enum JournalFault {
    /// The first line isn't that of a journal.
    Header,
    /// The line of this number, counted from 1, is the first that is neither an event nor a comment, or that makes the events
    /// more than a journal may have.
    NoEvent(u32),
    /// Out of memory.
    Memory,
}

impl From<AllocError> for JournalFault {
    ghost use Rattle.std.specs.Prelude.{◌≡◌};
    ghost use Rattle.journal_versions.specs.declared.fault.JournalFault.TheVariants.{Memory};

    ghost from_gives = { λ _ fault. fault ≡ Memory };

    fn from(_: AllocError) -> JournalFault {
        JournalFault::Memory
    }
}
