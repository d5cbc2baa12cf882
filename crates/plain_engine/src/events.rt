//! The engine as one of `dsu_runs`.
ghost use Rattle.std.specs.Prelude.{◌≡◌, option_map};
ghost use Rattle.source_runner.specs.Waits.{waiting_of as source_waiting};
ghost use Rattle.dsu_runs.specs.Engines.{waiting_of};

use crate::PlainEngine;
use crate::state::SLOTS;
use dsu_io::Sink;
use dsu_runs::{Engine, Made, Stands, Turn, Undecided, Waiting};
use name_sets::Names;
use run_machine::Machine;
use run_types::{Ending, Event};
use source_model::OfferAnswer;
use source_runner::SourceWait;
use std::alloc::AllocError;

impl<M: Machine, S: Sink> Engine for PlainEngine<M, S> {
    ghost use Rattle.plain_engine.specs.Plain.{IsAt};

    ghost is_at = { λ setup g engine. IsAt M.shown setup g engine.state engine.printed engine.written };

    ghost told = { λ engine. S.told engine.sink };

    ghost faults = { λ engine. S.faults engine.sink };

    ghost table = { λ engine. engine.state.installed.names };

    ghost asks = { λ engine. M.asks engine.state.run };

    fn slots(&self) -> u8 {
        SLOTS
    }

    fn stands(&self, slot: u8) -> Stands {
        if self.state.is_at_check_in(slot) {
            return Stands::AtCheckIn;
        }
        if self.state.run.is_live(slot) {
            Stands::Going
        } else {
            Stands::NoThread
        }
    }

    fn finish(&self) -> Option<Ending> {
        self.state.run.ending()
    }

    #[inline(always)]
    fn next_act(&self, last: Option<u8>) -> Option<Event> {
        self.state.next_act(last)
    }

    fn waits(&self, slot: u8) -> Option<Waiting<'_>> {
        if self.state.is_over() {
            return None;
        }
        waiting(self.state.run.waits(slot))
    }

    #[inline(always)]
    fn act(&mut self, slot: u8) -> Result<Made, AllocError> {
        self.act(slot)
    }

    #[inline(always)]
    fn check_in(&mut self, slot: u8) -> Made {
        self.check_in(slot)
    }

    #[inline(always)]
    fn act_next(&mut self, last: Option<u8>) -> Result<Turn, AllocError> {
        self.act_next(last)
    }

    fn offers(&self) -> u8 {
        self.state.book.len()
    }

    fn due(&self) -> Option<u8> {
        self.state.book.due(self.written)
    }

    fn open(&self) -> Option<u8> {
        self.state.book.open()
    }

    fn may_offer(&self, k: u8) -> bool {
        if self.state.has_ended() {
            return false;
        }
        self.state.book.may_offer(k, self.written)
    }

    fn offer(&mut self, k: u8) -> Made {
        self.offer(k)
    }

    fn decide(&mut self, k: u8) -> Result<Made, Undecided> {
        self.decide(k)
    }

    fn withdraw(&mut self, k: u8) -> Made {
        self.withdraw(k)
    }

    fn answers(&self) -> &[OfferAnswer] {
        self.state.book.answers()
    }

    fn names(&self) -> &Names {
        self.state.installed.names()
    }
}

/// What a machine says that a thread waits for, as an engine says it.
fn waiting(wait: Option<SourceWait<'_>>) -> Option<Waiting<'_>>
    ensures { option_map waiting_of result ≡ option_map source_waiting wait.entry }
{
    match wait {
        Some(SourceWait::Mutex(mutex, holder)) => Some(Waiting::Mutex(mutex, holder)),
        Some(SourceWait::Thread(joined)) => Some(Waiting::Thread(joined)),
        None => None,
    }
}
