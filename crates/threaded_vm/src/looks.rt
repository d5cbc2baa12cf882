ghost use Rattle.std.specs.Prelude.{◌≡◌, List, ◌++◌};
ghost use Rattle.pass_lock.specs.Passes.{IsFreePassOf};
ghost use Rattle.threaded_vm.specs.Turns.{Answered, Says};

use crate::{Held, Load, Look, Note, Opening};
use dsu_runs::Ahead;
use pass_lock::{Pass, PassLock};
use std::sync::Wait;

/// A place in the work of the workers.
#[derive(Clone, Copy, Debug, PartialEq, Eq)]
pub enum Place {
    /// Before the private work of that slot's thread.
    Burst(u8),
    /// Before a turn of that slot's pass.
    Turn(u8),
    /// Before that offer is prepared.
    Preparing(u8),
    /// Before the turn that closes that offer.
    Deciding(u8),
}

/// What workers pass at each place. A gate that returns at once changes nothing; one that waits orders the workers' steps.
pub trait Gate {
    fn pass(&self, place: Place);
}

/// A gate that is always open.
pub struct Open;

impl Gate for Open {
    fn pass(&self, _place: Place) {}
}

/// Does the private work of a slot's thread, and then takes a turn of the slot's pass: the slot's thread passes its check-in or
/// makes its move, if it can, and the private work that follows is copied. The pass's own entries grow by what the answer says.
pub fn look<E: Ahead, O: Opening, R: Wait, G: Gate>(
    rt: &R,
    lock: &PassLock<Held<E, O>>,
    slot: u8,
    pass: &mut Pass<Held<E, O>>,
    load: &mut Load<E, O>,
    gate: &G,
) -> Look
    requires pass { IsFreePassOf lock.now pass.old }
    requires number { pass.old.number ≡ slot }
    ensures pass { pass.new ≡ record pass.old { seen = pass.new.seen; own = pass.new.own } }
    ensures own { (added : List Note) × Answered slot result added × (pass.new.own ≡ pass.old.own ++ added) }
    ensures says { Says O.opened slot pass.new.seen result }
{
    gate.pass(Place::Burst(slot));
    load.advance();
    gate.pass(Place::Turn(slot));
    let mut turn = lock.take(rt, pass);
    let look = turn.value.shared.turn(slot, load);
    lock.give(pass, turn);
    look
}
