//! The pins before an install and after it.
ghost use Rattle.offer_decision.specs.Steps.{ArePinsBefore, ArePinsAfter, IsPin};

use crate::seat::Seat;
use con_freeness::Row;
use name_sets::NameSet;

/// Of which slots the thread is pinned.
pub(crate) fn pins(seats: &[Seat; 16]) -> [bool; 16]
    ensures { ArePinsBefore seats.now result }
{
    let mut pins = [false; 16];
    for slot in 0..16usize {
        pins[slot] = seats[slot].pinned;
    }
    pins
}

/// Whether a slot's thread is pinned after an install, by its row before it: a thread in a transaction that may have used a
/// changed name is pinned from then on.
fn pin_after(changed: &NameSet, row: &Row, seat: &Seat) -> bool
    ensures { IsPin changed.now row.now seat.now result }
{
    seat.pinned || (seat.in_transaction && changed.meets(&row.prior))
}

/// Of which slots the thread is pinned after an install, by the rows before it.
pub(crate) fn pins_after(changed: &NameSet, in_force: &[Row; 16], seats: &[Seat; 16]) -> [bool; 16]
    ensures { ArePinsAfter changed.now in_force.now seats.now result }
{
    let mut pins = [false; 16];
    for slot in 0..16usize {
        pins[slot] = pin_after(changed, &in_force[slot], &seats[slot]);
    }
    pins
}
