use dsu_runs::{Book, Engine, Made, Stands, Turn, Undecided, Waiting};
use name_sets::Names;
use run_types::{Ending, Event};
use source_model::OfferAnswer;
use std::alloc::{AllocError, Global};

/// What becomes of a decision.
#[derive(Clone, Copy)]
pub enum Decision {
    /// Each offer is installed as version 2.
    Installs,
    /// Memory is never enough.
    WantsMemory,
    /// A definition is misused.
    IsMisused,
    /// The text of each offer uses a name that it doesn't define.
    UsesUndefined,
    /// It can't be made.
    CannotHappen,
}

/// A script of one thread, which writes a line with each move until it can move no more. It has offers, and is at no guard
/// of any run: it shows in which order schedules ask for events.
#[derive(Drop)]
pub struct Scripted {
    book: Book,
    /// How many moves the thread can still make.
    moves: u8,
    written: usize,
    decision: Decision,
    names: Names,
}

impl Scripted {
    /// The script before its first event.
    pub fn new(alloc: Global, book: Book, moves: u8, decision: Decision) -> Scripted {
        Scripted {
            book,
            moves,
            written: 0,
            decision,
            names: Names::new(alloc),
        }
    }
}

impl Engine for Scripted {
    ghost use Rattle.std.specs.Prelude.{Some, []};

    ghost is_at = { λ setup g engine. ⊥ };

    ghost told = { λ engine. Some [] };

    ghost faults = { λ engine. 0 };

    ghost table = { λ engine. engine.names };

    ghost asks = { λ engine. Unit {0} };

    fn slots(&self) -> u8 {
        1
    }

    fn stands(&self, slot: u8) -> Stands {
        if slot == 0 {
            Stands::Going
        } else {
            Stands::NoThread
        }
    }

    fn finish(&self) -> Option<Ending> {
        None
    }

    fn next_act(&self, _last: Option<u8>) -> Option<Event> {
        if self.moves == 0 {
            None
        } else {
            Some(Event::Move(0))
        }
    }

    fn waits(&self, _slot: u8) -> Option<Waiting<'_>> {
        None
    }

    fn act(&mut self, slot: u8) -> Result<Made, AllocError> {
        if slot != 0 || self.moves == 0 {
            return Ok(Made::CannotHappen);
        }
        self.moves -= 1;
        self.written = self.written.saturating_add(1);
        Ok(Made::Done)
    }

    fn check_in(&mut self, _slot: u8) -> Made {
        Made::CannotHappen
    }

    fn act_next(&mut self, _last: Option<u8>) -> Result<Turn, AllocError> {
        if self.moves == 0 {
            return Ok(Turn::NoneActs);
        }
        self.moves -= 1;
        self.written = self.written.saturating_add(1);
        Ok(Turn::Changed(0))
    }

    fn offers(&self) -> u8 {
        self.book.len()
    }

    fn due(&self) -> Option<u8> {
        self.book.due(self.written)
    }

    fn open(&self) -> Option<u8> {
        self.book.open()
    }

    fn may_offer(&self, k: u8) -> bool {
        self.book.may_offer(k, self.written)
    }

    fn offer(&mut self, k: u8) -> Made {
        if self.book.offer(k, self.written) {
            Made::Done
        } else {
            Made::CannotHappen
        }
    }

    fn decide(&mut self, k: u8) -> Result<Made, Undecided> {
        if !self.book.is_open(k) {
            return Ok(Made::CannotHappen);
        }
        match self.decision {
            Decision::Installs => {
                self.book.close(k, OfferAnswer::Installed(2));
                Ok(Made::Done)
            }
            Decision::WantsMemory => Err(Undecided::Memory),
            Decision::IsMisused => Err(Undecided::Misused),
            Decision::UsesUndefined => Err(Undecided::UndefinedName),
            Decision::CannotHappen => Ok(Made::CannotHappen),
        }
    }

    fn withdraw(&mut self, k: u8) -> Made {
        if !self.book.is_open(k) {
            return Made::CannotHappen;
        }
        self.book.close(k, OfferAnswer::Withdrawn);
        Made::Done
    }

    fn answers(&self) -> &[OfferAnswer] {
        self.book.answers()
    }

    fn names(&self) -> &Names {
        &self.names
    }
}
