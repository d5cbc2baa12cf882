//! The test of the rows.
ghost use Rattle.std.specs.Prelude.{ℕ, ◌<◌, ◌↔◌, length};
ghost use Rattle.name_sets.specs.IdSet.{Holds};
ghost use Rattle.offer_decision.specs.Steps.{IsTested};

use crate::answer::Tested;
use crate::pins::{pins, pins_after};
use crate::seat::Seat;
use con_freeness::{Row, Verdict, decide};
use name_sets::{NameId, NameSet, Names};

/// The ids of a set that a table has.
fn within(names: &Names, set: &NameSet) -> NameSet
    ensures { (id : ℕ) → Holds result id ↔ (Holds set.now id × (id < length names.now)) }
{
    let mut ids = NameSet::empty();
    for index in 0..names.len() {
        if let Some(id) = NameId::new(index) {
            if set.holds(id) {
                ids.add(id);
            }
        }
    }
    ids
}

/// The verdict of the rows in force on some changed names, among these those of which the interface changes, and the pins
/// after an install. The rows have only names of the table, so names of the patch that the table lacks don't matter.
pub(crate) fn tested(
    names: &Names,
    changed: &NameSet,
    interface: &NameSet,
    in_force: &[Row; 16],
    seats: &[Seat; 16],
) -> Tested
    ensures { IsTested names.now changed.now interface.now in_force.now seats.now result }
{
    let changed = within(names, changed);
    let interface = within(names, interface);
    match decide(in_force, &pins(seats), &changed, &interface, names) {
        Verdict::Admitted => Tested::Admitted(pins_after(&changed, in_force, seats)),
        Verdict::Refused(refusal) => Tested::Refused(refusal),
    }
}
