//! The check of kept bytes against the source machine's run by a journal.
ghost use Rattle.std.specs.Prelude.{◌≡◌, IfErr, IfOk};
ghost use Rattle.source_model.specs.Guards.{Guard, Setup};
ghost use Rattle.source_model.specs.JournalLaws.{texts_of};
ghost use Rattle.source_model.specs.Journals.{moves};
ghost use Rattle.run_crosscheck.specs.Crosschecks.{IsCrosscheck};
ghost use Rattle.run_crosscheck.specs.GivenJournals.{IsJournal};

use crate::Comparison;
use crate::journal_run::JournalRun;
use c_types::Typed;
use run_types::Event;
use source_model::OfferAnswer;
use source_runner::Stepped;
use std::alloc::{AllocError, Global};
use version_spans::Span;

/// What the source machine says of a journal and of kept bytes.
#[derive(Drop)]
pub struct SourceAnswer {
    /// How the bytes compare with what it printed.
    pub comparison: Comparison,
    /// The versions that the definitions of each transaction share: of those that ended, the first first, then of those in
    /// progress, by slot.
    pub spans: Vec<Span>,
}

/// Why there is no answer.
#[derive(Clone, Copy, Debug, PartialEq, Eq)]
pub enum NotChecked {
    /// Out of memory.
    Memory,
    /// The source machine can't make the moves, or what is to be installed is no patch. No legal journal comes there.
    NoRun,
}

impl From<AllocError> for NotChecked {
    ghost use Rattle.std.specs.Prelude.{◌≡◌};
    ghost use Rattle.run_crosscheck.specs.declared.check.NotChecked.TheVariants.{Memory};

    ghost from_gives = { λ _ why. why ≡ Memory };

    fn from(_: AllocError) -> NotChecked {
        NotChecked::Memory
    }
}

/// Has the source machine make the moves of a journal, and compares what it prints with kept bytes. The texts are those of the
/// run, the first one first and then those of the offers; so many objects may live at once; `given` has what was answered to
/// each offer.
pub fn crosscheck(
    alloc: Global,
    texts: Vec<Typed>,
    objects: u32,
    events: &[Event],
    given: &[OfferAnswer],
    bytes: &[u8],
) -> Result<SourceAnswer, NotChecked>
    ensures answer { (setup : Setup) (g : Guard) → IsJournal setup g texts.items objects events.now given.now
        → IfOk result (IsCrosscheck (texts_of setup) setup.limits (moves g.answers events.now) bytes.now) }
    ensures memory { (setup : Setup) (g : Guard) → IsJournal setup g texts.items objects events.now given.now
        → IfErr result (λ why. why ≡ NotChecked.Memory) }
{
    if texts.is_empty() {
        return Err(NotChecked::NoRun);
    }
    let mut source = JournalRun::new(alloc, texts, objects)?;
    match source.follow(alloc, events, given)? {
        Stepped::Done => Ok(source.check(bytes)?),
        Stepped::CannotMove => Err(NotChecked::NoRun),
    }
}
