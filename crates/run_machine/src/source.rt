//! The source machine as a machine.
use crate::{LeavesWork, Machine, MoveMade, Moved};
use c_types::Typed;
use resolved_tree::Word;
use run_types::Ending;
use source_runner::{FrameAt, SourceMove, SourceRun, SourceWait, Stepped};
use std::alloc::{AllocError, Global};
use std::sync::Arc;
use type_transformers::Change;

impl Machine for SourceRun {
    ghost use Rattle.run_machine.specs.Sources.{source_shown};

    ghost shown = { source_shown };

    // Its words, frames and output take memory as the run goes on.
    ghost lasts = { λ _ _. ⊥ };

    ghost spent = { λ _ _. ⊥ };

    // It does all private work within the move.
    ghost asks = { λ _. Unit {0} };

    fn step(&mut self, slot: u8) -> Result<Moved, AllocError> {
        // Where the move leads is asked before it is made.
        let leads = self.leads(slot);
        let threads = self.threads();
        match self.step(SourceMove::Move(slot))? {
            Stepped::CannotMove => Ok(Moved::CannotMove),
            Stepped::Done => {
                let starts = self.threads() != threads;
                Ok(Moved::Done(MoveMade { leads, starts }))
            }
        }
    }

    fn install(&mut self, number: usize, changes: &[Change]) -> Result<Stepped, AllocError> {
        self.install(number, changes)
    }

    fn output_from(&self, from: usize) -> &[u8] {
        let output = self.output();
        // An output never shrinks.
        if output.len() < from {
            return output;
        }
        &output[from..]
    }

    // The source machine keeps all that was printed.
    fn forget(&mut self) {}

    fn misused(&self) -> bool {
        self.misused()
    }

    fn ending(&self) -> Option<Ending> {
        self.ending()
    }

    fn is_live(&self, slot: u8) -> bool {
        self.is_live(slot)
    }

    fn can_move(&self, slot: u8) -> bool {
        self.can_move(slot)
    }

    fn waits(&self, slot: u8) -> Option<SourceWait<'_>> {
        self.waits(slot)
    }

    fn text(&self, number: usize) -> Option<&Typed> {
        self.text(number)
    }

    fn word(&self, word: Word) -> &str {
        self.word(word)
    }

    fn in_transaction(&self, slot: u8) -> bool {
        self.in_transaction(slot)
    }

    fn frame(&self, slot: u8) -> Option<FrameAt> {
        self.frame(slot)
    }

    fn frame_up(&self, slot: u8, up: usize) -> Option<FrameAt> {
        self.frame_up(slot, up)
    }

    fn next_point(&self, slot: u8) -> Option<u32> {
        self.next_point(slot)
    }

    fn entering(&self, slot: u8) -> Option<Word> {
        self.entering(slot)
    }
}

/// The private work of the source machine's threads: none is ever due.
#[derive(Drop)]
pub struct NoWork;

impl LeavesWork for SourceRun {
    type Work = NoWork;

    ghost works_for = { λ _ _. Unit {0} };

    fn leave_work(&mut self) {}

    fn try_settle(&mut self) -> bool {
        true
    }

    fn settle(&mut self) {}

    fn work(&self, _alloc: Global) -> Result<NoWork, AllocError> {
        Ok(NoWork)
    }

    fn hand_out(&self, _slot: u8, _work: &mut NoWork) {}

    fn advance(_work: &mut NoWork) {}

    fn take_back(&mut self, _slot: u8, _work: &NoWork) {}

    fn texts(&self) -> Option<Arc<Vec<Typed>, Global>> {
        None
    }
}
