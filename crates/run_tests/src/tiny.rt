ghost use Rattle.std.specs.Prelude.{◌≡◌};
ghost use Rattle.run_tests.specs.declared.tiny.Stage.TheVariants.{Start};

use dsu_runs::{Engine, Made, Stands, Turn, Undecided, Waiting};
use name_sets::Names;
use run_types::{Ending, Event};
use source_model::OfferAnswer;
use std::alloc::{AllocError, Global};

/// How far the run of a text without definitions has come.
#[derive(Clone, Copy)]
pub enum Stage {
    /// `main` is to be entered.
    Start,
    /// There was no `main`, and its thread is at the check-in after that move.
    Moved,
    /// The check-in was passed.
    Passed,
}

/// The engine of that run alone. It has no offers.
#[derive(Drop)]
pub struct Tiny {
    stage: Stage,
    names: Names,
}

impl Tiny {
    /// The start of the run.
    pub fn new(alloc: Global) -> Tiny
        ensures { result.stage ≡ Start }
    {
        Tiny {
            stage: Stage::Start,
            names: Names::new(alloc),
        }
    }
}

impl Engine for Tiny {
    ghost use Rattle.std.specs.Prelude.{◌≡◌, [], Some};
    ghost use Rattle.run_tests.specs.SmallRun.{guard_at, tiny};

    ghost is_at = { λ setup g engine. (setup ≡ tiny) × (g ≡ guard_at engine.stage) };

    ghost told = { λ engine. Some [] };

    ghost faults = { λ engine. 0 };

    ghost table = { λ engine. engine.names };

    ghost asks = { λ engine. Unit {0} };

    fn slots(&self) -> u8 {
        1
    }

    fn stands(&self, slot: u8) -> Stands {
        if slot != 0 {
            return Stands::NoThread;
        }
        match self.stage {
            Stage::Start => Stands::Going,
            Stage::Moved => Stands::AtCheckIn,
            Stage::Passed => Stands::Going,
        }
    }

    fn finish(&self) -> Option<Ending> {
        None
    }

    fn next_act(&self, _last: Option<u8>) -> Option<Event> {
        match self.stage {
            Stage::Start => Some(Event::Move(0)),
            Stage::Moved => Some(Event::CheckIn(0)),
            Stage::Passed => None,
        }
    }

    fn waits(&self, _slot: u8) -> Option<Waiting<'_>> {
        None
    }

    fn act(&mut self, slot: u8) -> Result<Made, AllocError> {
        if slot != 0 {
            return Ok(Made::CannotHappen);
        }
        match self.stage {
            Stage::Start => {
                self.stage = Stage::Moved;
                Ok(Made::Done)
            }
            Stage::Moved => Ok(Made::CannotHappen),
            Stage::Passed => Ok(Made::CannotHappen),
        }
    }

    fn check_in(&mut self, slot: u8) -> Made {
        if slot != 0 {
            return Made::CannotHappen;
        }
        match self.stage {
            Stage::Start => Made::CannotHappen,
            Stage::Moved => {
                self.stage = Stage::Passed;
                Made::Done
            }
            Stage::Passed => Made::CannotHappen,
        }
    }

    fn act_next(&mut self, _last: Option<u8>) -> Result<Turn, AllocError> {
        match self.stage {
            Stage::Start => {
                self.stage = Stage::Moved;
                Ok(Turn::Changed(0))
            }
            Stage::Moved => {
                self.stage = Stage::Passed;
                Ok(Turn::CheckedIn(0))
            }
            Stage::Passed => Ok(Turn::NoneActs),
        }
    }

    fn offers(&self) -> u8 {
        0
    }

    fn due(&self) -> Option<u8> {
        None
    }

    fn open(&self) -> Option<u8> {
        None
    }

    fn may_offer(&self, _k: u8) -> bool {
        false
    }

    fn offer(&mut self, _k: u8) -> Made {
        Made::CannotHappen
    }

    fn decide(&mut self, _k: u8) -> Result<Made, Undecided> {
        Ok(Made::CannotHappen)
    }

    fn withdraw(&mut self, _k: u8) -> Made {
        Made::CannotHappen
    }

    fn answers(&self) -> &[OfferAnswer] {
        &[]
    }

    fn names(&self) -> &Names {
        &self.names
    }
}
