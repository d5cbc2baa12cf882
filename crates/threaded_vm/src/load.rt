ghost use Rattle.std.specs.Prelude.{IfOk};
ghost use Rattle.source_model.specs.Guards.{Guard, Setup};

use crate::Opening;
use dsu_runs::Ahead;
use std::alloc::{AllocError, Global};
use std::marker::{Model, PhantomData};

/// The private work of a slot's thread on a copy, of a run that workers were given.
#[derive(Drop)]
pub struct Load<E: Ahead, O: Opening> {
    work: E::Work,
    of: PhantomData<O>,
}

impl<E: Ahead, O: Opening> Model for Load<E, O> {
    ghost use Rattle.source_model.specs.Guards.{Guard, Setup};

    ghost Value = { Unit {0} };

    ghost view = { λ _. tt };

    ghost invariant = { λ s. (setup : Setup) (g : Guard) → O.opened.at setup g → E.works_for setup s.work };
}

impl<E: Ahead, O: Opening> Load<E, O> {
    /// Room for the work of any thread.
    pub(crate) fn new(engine: &E, alloc: Global) -> Result<Load<E, O>, AllocError>
        requires { (setup : Setup) (g : Guard) → O.opened.at setup g → E.is_at setup g engine.now }
    {
        Ok(Load {
            work: engine.work(alloc)?,
            of: PhantomData,
        })
    }

    /// Does the work.
    pub(crate) fn advance(&mut self) {
        E::advance(&mut self.work);
    }

    /// Copies the private work that is due in a slot, if some is.
    pub(crate) fn hand_out(&mut self, engine: &E, slot: u8) {
        engine.hand_out(slot, &mut self.work);
    }

    pub(crate) fn work(&self) -> &E::Work
        ensures { (setup : Setup) (g : Guard) → O.opened.at setup g → E.works_for setup result.now }
    {
        &self.work
    }
}
