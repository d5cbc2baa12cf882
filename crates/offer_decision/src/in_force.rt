//! The rows in force of the slots.
ghost use Rattle.std.specs.Prelude.{List};
ghost use Rattle.c_tree.specs.BareExpr.{Bytes};
ghost use Rattle.c_semantics.specs.Store.{Body};
ghost use Rattle.code_store.specs.Stored.{IsStoreOf};
ghost use Rattle.checkin_rows.specs.Rows.{AreRowsOf, IsEmptyRow};
ghost use Rattle.offer_decision.specs.Steps.{HasRow, HaveRows};

use crate::seat::Seat;
use checkin_rows::Rows;
use code_store::StoredBody;
use con_freeness::Row;
use name_sets::NameSet;
use rows_in_force::{Origin, row_of};

/// The row of a slot without a live thread.
fn empty_row() -> Row
    ensures { IsEmptyRow result }
{
    Row {
        prior: NameSet::empty(),
        future: NameSet::empty(),
        concrete: NameSet::empty(),
    }
}

/// The row in force of one slot.
fn row_in_force(rows: &Rows, bodies: &[StoredBody], origin: Option<Origin>) -> Row
    ensures { (names : List Bytes) (all : List Body) → IsStoreOf names all bodies.now
        → AreRowsOf names all rows.now → HasRow names all origin result }
{
    match origin {
        Some(origin) => row_of(rows, bodies, origin),
        None => empty_row(),
    }
}

/// The rows in force of all slots, over the bodies of a store and their rows.
pub(crate) fn rows_of_seats(rows: &Rows, bodies: &[StoredBody], seats: &[Seat; 16]) -> [Row; 16]
    ensures { (names : List Bytes) (all : List Body) → IsStoreOf names all bodies.now
        → AreRowsOf names all rows.now → HaveRows names all seats.now result }
{
    let mut in_force = [empty_row(); 16];
    for slot in 0..16usize {
        in_force[slot] = row_in_force(rows, bodies, seats[slot].origin);
    }
    in_force
}
