//! Passes, turns, and the fault of memory.
ghost use Rattle.std.specs.Prelude.{◌≡◌};
ghost use Rattle.pass_lock.specs.Steps.{known, IsPass};

use crate::told::Told;
use crate::view::View;
use atomic_table::Seat;
use std::marker::Model;

/// The right of one thread to take turns of one lock. It has no bytes.
pub struct Pass<W: Told> {
    pub(crate) seat: Seat<Option<W>, View<W::What>>,
}

impl<W: Told> Model for Pass<W> {
    ghost use Rattle.pass_lock.specs.Passes.{Known};
    ghost use Rattle.pass_lock.specs.Steps.{known, IsPass};

    ghost Value = { Known W.What };

    ghost view = { λ p. known p.seat };

    ghost invariant = { λ p. IsPass p.seat };
}

impl<W: Told> Pass<W> {
    pub(crate) fn of(seat: Seat<Option<W>, View<W::What>>) -> Pass<W>
        requires { IsPass seat }
        ensures { result ≡ known seat }
    {
        Pass { seat }
    }

    pub(crate) fn into_seat(self) -> Seat<Option<W>, View<W::What>>
        ensures { IsPass result × (known result ≡ self) }
    {
        let Pass { seat } = self;
        seat
    }
}

/// A turn with the locked value. It can't be let go: `PassLock::give` ends it.
pub struct Turn<W: Told> {
    pub value: W,
}

/// There was no memory for a lock. The value comes back.
#[derive(Drop)]
pub struct LockFault<W: Told> {
    pub value: W,
}

impl<W: Told> Drop for Pass<W> {
    fn drop(self) {
        let Self { seat: _ } = self;
    }
}
