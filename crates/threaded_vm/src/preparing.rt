ghost use Rattle.source_model.specs.Guards.{Guard, Setup};

use crate::Opening;
use dsu_runs::Ahead;
use std::marker::{Model, PhantomData};

/// The preparation of an offer's decision, of a run that workers were given.
#[derive(Drop)]
pub struct Preparing<E: Ahead, O: Opening> {
    preparation: E::Preparation,
    of: PhantomData<O>,
}

impl<E: Ahead, O: Opening> Model for Preparing<E, O> {
    ghost use Rattle.source_model.specs.Guards.{Guard, Setup};

    ghost Value = { Unit {0} };

    ghost view = { λ _. tt };

    ghost invariant = { λ s. (setup : Setup) (g : Guard) → O.opened.at setup g → E.prepares_for setup s.preparation };
}

impl<E: Ahead, O: Opening> Preparing<E, O> {
    pub(crate) fn new(preparation: E::Preparation) -> Preparing<E, O>
        requires { (setup : Setup) (g : Guard) → O.opened.at setup g → E.prepares_for setup preparation }
    {
        Preparing {
            preparation,
            of: PhantomData,
        }
    }

    /// Prepares the decision.
    pub(crate) fn prepare(&mut self) {
        E::prepare(&mut self.preparation);
    }

    pub(crate) fn into_preparation(self) -> E::Preparation
        ensures { (setup : Setup) (g : Guard) → O.opened.at setup g → E.prepares_for setup result }
    {
        let Preparing { preparation, of: _ } = self;
        preparation
    }
}
