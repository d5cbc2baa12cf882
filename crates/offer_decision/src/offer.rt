//! The whole: what is prepared, and what is decided on it.
ghost use Rattle.std.specs.Prelude.{◌≡◌, map, IfOk, IsErrOf};
ghost use Rattle.std.specs.Arc.{arc_value};
ghost use Rattle.c_tree.specs.Bare.{bare_def};
ghost use Rattle.c_tree.specs.declared.def.Program.{Program};
ghost use Rattle.brought_bodies.specs.Undefined.{HasUndefinedUse};
ghost use Rattle.rows_in_force.specs.StoreRows.{AreRowsOver};
ghost use Rattle.patch_build.specs.declared.patch.Versions.{Versions};
ghost use Rattle.offer_decision.specs.Decided.{ForOffer, IsDecision};
ghost use Rattle.offer_decision.specs.Prepared.{HasItsRows, IsPrepared};
ghost use Rattle.offer_decision.specs.Steps.{IsAnswer, IsOfFault, IsTestedOver};

use crate::answer::{Decision, DecisionFault, Tested};
use crate::in_force::rows_of_seats;
use crate::prepared::{Found, Offered, Prepared};
use crate::seat::Seat;
use crate::verdict::tested;
use checkin_rows::Rows;
use code_store::Store;
use name_sets::{NameSet, Names};
use patch_build::{Patch, PatchFault, prepare as patch_of};
use rows_in_force::rows;
use std::alloc::{AllocError, Global};
use std::sync::Arc;

/// The rows over the bodies of the versions, computed anew unless they come with the offer.
fn rows_for(alloc: Global, offered: Offered<'_>) -> Result<Arc<Rows, Global>, AllocError>
    ensures { HasItsRows offered.entry
        → IfOk result (λ rows. AreRowsOver offered.entry.versions.store.now (arc_value rows)) }
{
    match offered.rows {
        Some(kept) => Arc::try_clone(kept),
        None => {
            let computed = rows(alloc, offered.versions.store)?;
            let shared = Arc::new(alloc, computed)?;
            Ok(shared)
        }
    }
}

/// What was found of a text that is no patch of so many versions.
fn without_patch(versions: u32, fault: PatchFault) -> Result<Prepared, DecisionFault>
    ensures count { IfOk result (λ prepared. prepared.versions ≡ versions) }
    ensures found { IfOk result (λ prepared. IsOfFault fault prepared.found) }
    ensures undefined { IsErrOf result DecisionFault.UndefinedName → fault ≡ PatchFault.UndefinedName }
{
    match fault {
        PatchFault::Not(cause) => Ok(Prepared {
            versions,
            found: Found::NotPatch(cause),
        }),
        PatchFault::UndefinedName => Err(DecisionFault::UndefinedName),
        PatchFault::Memory => Err(DecisionFault::Memory),
    }
}

/// All of a decision on an offer that doesn't depend on how threads stand: what its install needs, or the first cause for which
/// it is no patch; and the rows by which it is tested.
///
/// `Memory` comes where there is no memory for the patch or the rows. `UndefinedName` comes only where a function of the text uses
/// a name that the text doesn't define.
pub fn prepare(alloc: Global, offered: Offered<'_>) -> Result<Prepared, DecisionFault>
    ensures prepared { HasItsRows offered.entry
        → IfOk result (IsPrepared offered.entry.versions offered.entry.text.now) }
    ensures undefined { IsErrOf result DecisionFault.UndefinedName
        → HasUndefinedUse (map bare_def offered.entry.text.now.definitions) }
{
    let versions = offered.versions.count;
    match patch_of(alloc, offered.versions, offered.text) {
        Ok(patch) => {
            let rows = rows_for(alloc, offered)?;
            Ok(Prepared {
                versions,
                found: Found::Patch(patch, rows),
            })
        }
        Err(fault) => without_patch(versions, fault),
    }
}

/// The verdict over the rows in force.
fn tested_over(
    names: &Names,
    store: &Store,
    rows: &Rows,
    changed: &NameSet,
    interface: &NameSet,
    seats: &[Seat; 16],
) -> Tested
    ensures { AreRowsOver store.now rows.now
        → IsTestedOver names.now store.now changed.now interface.now seats.now result }
{
    let in_force = rows_of_seats(rows, store.bodies(), seats);
    tested(names, changed, interface, &in_force, seats)
}

/// The decision on a patch.
fn answer(patch: Patch, rows: &Rows, names: &Names, store: &Store, seats: &[Seat; 16]) -> Decision
    ensures { AreRowsOver store.now rows.now → IsAnswer names.now store.now patch seats.now result }
{
    match tested_over(names, store, rows, &patch.changed, &patch.interface, seats) {
        Tested::Admitted(pins) => Decision::Admitted(patch, pins),
        Tested::Refused(refusal) => Decision::Refused(refusal),
    }
}

/// The decision on a prepared offer, by the names and the bodies of the versions for which it was prepared, and by the slots. It
/// takes no memory.
pub fn decide_prepared(
    prepared: Prepared,
    names: &Names,
    store: &Store,
    seats: &[Seat; 16],
) -> Decision
    ensures { (versions : Versions) (next : Program) → versions.names.now ≡ names.now → versions.store.now ≡ store.now
        → IsPrepared versions next prepared → ForOffer versions seats.now (λ rules texts slots.
        IsDecision rules texts slots versions next seats.now result) }
{
    let found = prepared.found;
    match found {
        Found::Patch(patch, rows) => answer(patch, &rows, names, store, seats),
        Found::NotPatch(cause) => Decision::NotPatch(cause),
    }
}
