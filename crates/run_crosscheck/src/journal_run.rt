//! The source machine, moved by the events of a journal.
ghost use Rattle.std.specs.Prelude.{◌≡◌, ◌<◌, ◌∷◌, ◌++◌, ℕ, suc, [], List, IfOk, Some, false, true, length, map, slice_get};
ghost use Rattle.std.specs.Option.{option_map_or};
ghost use Rattle.c_tree.specs.BareExpr.{Bytes};
ghost use Rattle.c_tree.specs.declared.def.Program.{Program};
ghost use Rattle.run_types.specs.declared.run.Event.{Event as Made};
ghost use Rattle.run_types.specs.declared.run.Event.TheVariants.{Decide};
ghost use Rattle.source_model.specs.declared.answer.OfferAnswer.{OfferAnswer as Given};
ghost use Rattle.source_model.specs.Answers.{answer_seen};
ghost use Rattle.source_model.specs.Guards.{Answered, Guard, Setup};
ghost use Rattle.source_model.specs.JournalLaws.{texts_of};
ghost use Rattle.source_model.specs.Journals.{answer_of, answers, moves};
ghost use Rattle.source_runner.specs.SourceRuns.{trees_of};
ghost use Rattle.run_crosscheck.specs.Crosschecks.{IsCrosscheck};
ghost use Rattle.run_crosscheck.specs.GivenJournals.{IsJournal};
ghost use Rattle.run_crosscheck.specs.Following.{HasChanges, HasFollowed, IsFollowed, is_install, says_installed};

use crate::{SourceAnswer, compare};
use c_types::Typed;
use patch_faults::TransformFault;
use recorded_runs::RecordedRun;
use run_types::Event;
use source_model::{OfferAnswer, journal_is_a_run};
use source_runner::{SourceMove, SourceRun, Stepped};
use std::alloc::{AllocError, Global};
use type_transformers::{Change, transforms};

/// How many slots a run has.
const SLOTS: u8 = 16;

/// A run of the source machine by the events of a journal.
#[derive(Drop)]
pub(crate) struct JournalRun {
    run: RecordedRun,
    /// The number of the text in force.
    text: usize,
}

impl JournalRun {
    /// The start of the run of a journal, where so many objects may live at once.
    pub(crate) fn new(
        alloc: Global,
        texts: Vec<Typed>,
        objects: u32,
    ) -> Result<JournalRun, AllocError>
        requires { 0 < length texts.items }
        ensures { (setup : Setup) (g : Guard) (events : List Made) (given : List Given) → IsJournal setup g texts.items objects events given
            → IfOk result (IsFollowed setup g.answers [] events) }
    {
        journal_is_a_run();
        Ok(JournalRun {
            run: RecordedRun::new(alloc, texts, objects, SLOTS)?,
            text: 0,
        })
    }

    /// Makes the moves of events, to whose offers this was answered.
    pub(crate) fn follow(
        &mut self,
        alloc: Global,
        events: &[Event],
        given: &[OfferAnswer],
    ) -> Result<Stepped, AllocError>
        ensures { (setup : Setup) (g : Guard) (names : List Bytes) → map (answer_seen names) given.now ≡ answers setup g
            → IsFollowed setup g.answers [] events.now self.old → IfOk result (HasFollowed setup g.answers events.now [] self.new) }
    {
        for event in events {
            match self.make(alloc, *event, given)? {
                Stepped::Done => {}
                Stepped::CannotMove => return Ok(Stepped::CannotMove),
            }
        }
        Ok(Stepped::Done)
    }

    /// Makes the move of an event, if it has one.
    fn make(
        &mut self,
        alloc: Global,
        event: Event,
        given: &[OfferAnswer],
    ) -> Result<Stepped, AllocError>
        ensures { (setup : Setup) (g : Guard) (names : List Bytes) (es rest : List Made) → map (answer_seen names) given.now ≡ answers setup g
            → IsFollowed setup g.answers es (event ∷ rest) self.old
            → IfOk result (HasFollowed setup g.answers (es ++ event ∷ []) rest self.new) }
    {
        match event {
            Event::Move(slot) => self.run.step(SourceMove::Move(slot)),
            Event::Decide(k) => self.follow_decision(alloc, k, given),
            Event::CheckIn(_) | Event::Offer(_) | Event::Withdraw(_) => Ok(Stepped::Done),
        }
    }

    /// Installs an offer that was decided, if it was installed.
    fn follow_decision(
        &mut self,
        alloc: Global,
        k: u8,
        given: &[OfferAnswer],
    ) -> Result<Stepped, AllocError>
        ensures { (setup : Setup) (g : Guard) (names : List Bytes) (es rest : List Made) → map (answer_seen names) given.now ≡ answers setup g
            → IsFollowed setup g.answers es (Decide k ∷ rest) self.old
            → IfOk result (HasFollowed setup g.answers (es ++ Decide k ∷ []) rest self.new) }
    {
        if was_installed(given, k) {
            self.install(alloc, k as usize)
        } else {
            Ok(Stepped::Done)
        }
    }

    /// Installs the text with a number.
    fn install(&mut self, alloc: Global, number: usize) -> Result<Stepped, AllocError>
        ensures { (setup : Setup) (given : List Answered) (es rest : List Made) → is_install (answer_of given number) ≡ true
            → IsFollowed setup given es (Decide number ∷ rest) self.old
            → IfOk result (HasFollowed setup given (es ++ Decide number ∷ []) rest self.new) }
    {
        let Some(changes) = changes_between(alloc, self.run.run(), self.text, number)? else {
            return Ok(Stepped::CannotMove);
        };
        match self.run.install(number, &changes)? {
            Stepped::Done => {
                self.text = number;
                Ok(Stepped::Done)
            }
            Stepped::CannotMove => Ok(Stepped::CannotMove),
        }
    }

    /// Compares what was printed with kept bytes, and says the spans.
    pub(crate) fn check(&self, bytes: &[u8]) -> Result<SourceAnswer, AllocError>
        ensures { (setup : Setup) (given : List Answered) (es : List Made) → IsFollowed setup given es [] self.now
            → IfOk result (IsCrosscheck (texts_of setup) setup.limits (moves given es) bytes.now) }
    {
        let spans = self.run.spans()?;
        let comparison = compare(self.run.run().output(), bytes);
        Ok(SourceAnswer { comparison, spans })
    }
}

/// Whether an offer was installed, by what was answered to each.
fn was_installed(given: &[OfferAnswer], k: u8) -> bool
    ensures { (i : ℕ) → k ≡ suc i → result ≡ option_map_or says_installed (slice_get given.now i) false }
{
    if k == 0 {
        return false;
    }
    match given.get(k as usize - 1) {
        Some(OfferAnswer::Installed(_)) => true,
        Some(_) => false,
        None => false,
    }
}

/// What becomes of old data where the text with one number follows that with another; nothing where one isn't there, or where
/// the transformers of the newer one have a fault.
fn changes_between(
    alloc: Global,
    run: &SourceRun,
    from: usize,
    to: usize,
) -> Result<Option<Vec<Change>>, AllocError>
    ensures { (p q : Program) → slice_get (trees_of run.now) from ≡ Some p → slice_get (trees_of run.now) to ≡ Some q
        → IfOk result (HasChanges p q) }
{
    let (Some(old), Some(new)) = (run.text(from), run.text(to)) else {
        return Ok(None);
    };
    match transforms(alloc, old, new) {
        Ok(changes) => Ok(Some(changes)),
        Err(TransformFault::Memory) => Err(AllocError),
        Err(_) => Ok(None),
    }
}
