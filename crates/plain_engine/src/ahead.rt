//! The engine as one whose private work can be done elsewhere.
ghost use Rattle.std.specs.Prelude.{◌≡◌};

use crate::PlainEngine;
use dsu_io::Sink;
use dsu_runs::{Ahead, Made, Undecided};
use offer_preparations::Preparation;
use run_machine::LeavesWork;
use std::alloc::{AllocError, Global};

impl<M: LeavesWork, S: Sink> Ahead for PlainEngine<M, S> {
    type Work = M::Work;

    type Preparation = Preparation;

    ghost use Rattle.source_model.specs.JournalLaws.{texts_of};
    ghost use Rattle.plain_engine.specs.Prepared.{IsPreparationIn};

    ghost works_for = { λ setup work. M.works_for (texts_of setup) work };

    ghost prepares_for = { IsPreparationIn };

    fn work(&self, alloc: Global) -> Result<M::Work, AllocError> {
        self.state.run.work(alloc)
    }

    fn leave_work(&mut self) {
        self.state.run.leave_work();
    }

    fn hand_out(&self, slot: u8, work: &mut M::Work) {
        self.state.run.hand_out(slot, work);
    }

    fn advance(work: &mut M::Work) {
        M::advance(work);
    }

    fn take_back(&mut self, slot: u8, work: &M::Work) {
        self.state.run.take_back(slot, work);
    }

    fn try_settle(&mut self) -> bool {
        self.state.run.try_settle()
    }

    fn settle(&mut self) {
        self.state.run.settle();
    }

    fn preparation(&self, alloc: Global, k: u8) -> Option<Preparation> {
        match self.state.run.texts() {
            Some(texts) => self.preparation_over(alloc, k, texts),
            None => None,
        }
    }

    fn prepare(preparation: &mut Preparation) {
        preparation.prepare();
    }

    fn decide_prepared(&mut self, k: u8, preparation: Preparation) -> Result<Made, Undecided> {
        self.decide_with(k, preparation)
    }
}
