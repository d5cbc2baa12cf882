ghost use Rattle.std.specs.Prelude.{◌≡◌};
ghost use Rattle.pass_lock.specs.Passes.{IsFreeAt};

use crate::crew::Crew;
use crate::{Gate, Held, Load, Look, Opening, Place, Preparing, look};
use dsu_runs::Ahead;
use pass_lock::Pass;
use std::marker::Model;
use std::sync::Wait;

/// A slot in the hands of a worker: the slot's pass, and the private work of its thread.
#[derive(Drop)]
pub(crate) struct Seat<E: Ahead + Drop, O: Opening> {
    slot: u8,
    pass: Pass<Held<E, O>>,
    load: Load<E, O>,
}

impl<E: Ahead + Drop, O: Opening> Model for Seat<E, O> {
    ghost use Rattle.std.specs.Prelude.{◌≡◌};
    ghost use Rattle.pass_lock.specs.Passes.{Known};
    ghost use Rattle.threaded_vm.specs.declared.notes.Note.{Note};

    ghost Value = { Known Note };

    ghost view = { λ s. s.pass };

    ghost invariant = { λ s. s.pass.number ≡ s.slot };
}

/// What came of a look, or of a round over a worker's slots.
#[derive(Clone, Copy, PartialEq, Eq)]
pub(crate) enum Round {
    Acted,
    Nothing,
    Ended,
}

impl<E: Ahead + Drop, O: Opening> Seat<E, O> {
    pub fn new(slot: u8, pass: Pass<Held<E, O>>, load: Load<E, O>) -> Seat<E, O>
        requires { pass.number ≡ slot }
        ensures { result ≡ pass }
    {
        Seat { slot, pass, load }
    }

    /// One look at the slot. An offer that is due is answered.
    pub fn turn<R: Wait, G: Gate>(&mut self, rt: &R, crew: &Crew<E, O>, gate: &G) -> Round
        requires { IsFreeAt crew.now.lock.table self.old }
        ensures { IsFreeAt crew.now.lock.table self.new }
    {
        match self.look(rt, crew, gate) {
            Look::Moved | Look::CheckedIn => {
                crew.changed();
                Round::Acted
            }
            Look::Due(_) => {
                self.answer_offer(rt, crew, gate);
                Round::Acted
            }
            Look::Ended => {
                crew.changed();
                Round::Ended
            }
            Look::Held | Look::Waits | Look::Idle | Look::Closing => Round::Nothing,
        }
    }

    fn look<R: Wait, G: Gate>(&mut self, rt: &R, crew: &Crew<E, O>, gate: &G) -> Look
        requires { IsFreeAt crew.now.lock.table self.old }
        ensures { IsFreeAt crew.now.lock.table self.new }
    {
        look(
            rt,
            &crew.lock,
            self.slot,
            &mut self.pass,
            &mut self.load,
            gate,
        )
    }

    // Opens the offer that is due, prepares it outside the lock, and closes it. Another worker may have done so before.
    fn answer_offer<R: Wait, G: Gate>(&mut self, rt: &R, crew: &Crew<E, O>, gate: &G)
        requires { IsFreeAt crew.now.lock.table self.old }
        ensures { IsFreeAt crew.now.lock.table self.new }
    {
        let Some((k, mut preparing)) = self.open_due(rt, crew) else {
            return;
        };
        crew.changed();
        gate.pass(Place::Preparing(k));
        if let Some(preparing) = &mut preparing {
            preparing.prepare();
        }
        gate.pass(Place::Deciding(k));
        self.close(rt, crew, k, preparing);
        crew.changed();
    }

    // Opens the offer that is due, in a turn of the pass.
    fn open_due<R: Wait>(
        &mut self,
        rt: &R,
        crew: &Crew<E, O>,
    ) -> Option<(u8, Option<Preparing<E, O>>)>
        requires { IsFreeAt crew.now.lock.table self.old }
        ensures { IsFreeAt crew.now.lock.table self.new }
    {
        let mut turn = crew.lock.take(rt, &mut self.pass);
        let opened = turn.value.shared.open_due(crew.alloc, self.slot);
        crew.lock.give(&mut self.pass, turn);
        opened
    }

    // Closes the open offer, in a turn of the pass.
    fn close<R: Wait>(
        &mut self,
        rt: &R,
        crew: &Crew<E, O>,
        k: u8,
        preparing: Option<Preparing<E, O>>,
    )
        requires { IsFreeAt crew.now.lock.table self.old }
        ensures { IsFreeAt crew.now.lock.table self.new }
    {
        let mut turn = crew.lock.take(rt, &mut self.pass);
        turn.value.shared.close(self.slot, k, preparing);
        crew.lock.give(&mut self.pass, turn);
    }
}
