//! What is kept of a slot.
ghost use Rattle.std.specs.Prelude.{◌≡◌};
ghost use Rattle.plain_engine.specs.Kept.{empty, is_there, started};

use resolved_tree::Word;
use source_runner::FrameAt;

/// What is kept of the thread in a slot, from which its row in force follows.
#[derive(Clone, Copy)]
pub(crate) enum Kept {
    /// No thread lives there.
    Empty,
    /// The thread passed no check-in yet: the function that it starts with.
    Started(Option<Word>),
    /// The frame in which it passed its last check-in.
    Passed(Option<FrameAt>),
}

/// A slot.
#[derive(Clone, Copy)]
pub(crate) struct Seat {
    pub kept: Kept,
    /// Whether the thread is at a check-in.
    pub at_check_in: bool,
    /// Whether the thread is pinned.
    pub pinned: bool,
}

impl Seat {
    /// A slot without a live thread.
    pub(crate) fn empty() -> Seat
        ensures { result ≡ empty }
    {
        Seat {
            kept: Kept::Empty,
            at_check_in: false,
            pinned: false,
        }
    }

    /// A slot in which a thread was started.
    pub(crate) fn started(function: Option<Word>) -> Seat
        ensures { result ≡ started function }
    {
        Seat {
            kept: Kept::Started(function),
            at_check_in: false,
            pinned: false,
        }
    }

    /// Whether a thread lives there.
    pub(crate) fn is_there(&self) -> bool
        ensures { result ≡ is_there self.now.kept }
    {
        !matches!(self.kept, Kept::Empty)
    }
}
