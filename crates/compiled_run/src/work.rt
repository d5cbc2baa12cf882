//! Private work that is left for later, and done elsewhere.
use crate::run::CompiledRun;
use c_types::Typed;
use code_machine::Work;
use run_machine::LeavesWork;
use std::alloc::{AllocError, Global};
use std::sync::Arc;

impl LeavesWork for CompiledRun {
    type Work = Work;

    ghost use Rattle.compiled_run.specs.Works.{WorksFor};

    ghost works_for = { WorksFor };

    fn leave_work(&mut self) {
        self.machine.leave_work();
    }

    fn try_settle(&mut self) -> bool {
        self.machine.try_settle()
    }

    fn settle(&mut self) {
        self.machine.settle();
    }

    fn work(&self, alloc: Global) -> Result<Work, AllocError> {
        self.machine.work(alloc)
    }

    fn hand_out(&self, slot: u8, work: &mut Work) {
        self.machine.hand_out(slot, work);
    }

    fn advance(work: &mut Work) {
        work.advance();
    }

    fn take_back(&mut self, slot: u8, work: &Work) {
        self.machine.take_back(slot, work);
    }

    fn texts(&self) -> Option<Arc<Vec<Typed>, Global>> {
        match Arc::try_clone(&self.texts) {
            Ok(texts) => Some(texts),
            Err(_) => None,
        }
    }
}
