//! The test of a row.
ghost use Rattle.std.specs.Prelude.{◌≡◌, List, false, Some, slice_get, IfOk};
ghost use Rattle.c_tree.specs.BareExpr.{Bytes};
ghost use Rattle.c_semantics.specs.Store.{Body, Start, CheckInOf};
ghost use Rattle.con_freeness.specs.Decisions.{IsListOf};
ghost use Rattle.con_freeness.specs.Obstacles.{IsObstacle};
ghost use Rattle.con_freeness.specs.Rows.{Names as Texts};
ghost use Rattle.code_store.specs.Stored.{IsStoreOf};
ghost use Rattle.admits_report.specs.Answered.{AnswersFor, IsAdmissionOver};
ghost use Rattle.admits_report.specs.Known.{IsKnownPart};

use crate::admission::Admission;
use check_in_places::Spot;
use con_freeness::{Effect, Row, Verdict, decide};
use name_sets::{NameId, NameSet, Names};
use patch_build::{Patch, Versions};
use rows_in_force::{Origin, row_of, rows};
use std::alloc::{AllocError, Global};

/// The rows of a text that is the only version, and what a patch changes. `AllocError` is also the answer where there are too
/// many points or check-ins to number, as [`rows`] says.
pub(crate) fn admission_of<'a>(
    alloc: Global,
    versions: Versions<'a>,
    patch: &Patch,
) -> Result<Admission<'a>, AllocError>
    ensures names { IfOk result (λ a. a.names.now ≡ versions.entry.names.now) }
    ensures over { IfOk result (λ a. (bodies : List Body) (changed interface : Texts)
        → IsStoreOf versions.entry.names.now bodies versions.entry.store.now
        → IsListOf versions.entry.names.now patch.now.changed changed
        → IsListOf versions.entry.names.now patch.now.interface interface
        → IsAdmissionOver bodies changed interface a) }
{
    let rows = rows(alloc, versions.store)?;
    let changed = within(versions.names, &patch.changed);
    let interface = within(versions.names, &patch.interface);
    Ok(Admission {
        names: versions.names,
        bodies: versions.store.bodies(),
        rows,
        changed,
        interface,
    })
}

/// What the row of a function's start answers.
pub(crate) fn start_answer(admission: &Admission<'_>, function: NameId) -> Option<Effect>
    ensures { (f : Bytes) → slice_get admission.now.names.now function ≡ Some f
        → AnswersFor admission.now (Start f) result }
{
    let row = row_of(&admission.rows, admission.bodies, Origin::Start(function));
    answer(admission, &row)
}

/// What the row of a check-in of a function's body answers.
pub(crate) fn check_in_answer(
    admission: &Admission<'_>,
    function: NameId,
    spot: Spot,
) -> Option<Effect>
    ensures { (f : Bytes) → slice_get admission.now.names.now function ≡ Some f
        → AnswersFor admission.now (CheckInOf f 1 spot.before) result }
{
    let number = admission.rows.row_id(function, 1, spot.before);
    answer(admission, admission.rows.row(number))
}

/// What a row says of a thread that isn't pinned: nothing where it admits the patch, else the effect of a refusal. A verdict on
/// sixteen such threads is that of the first.
fn answer(admission: &Admission<'_>, row: &Row) -> Option<Effect>
    ensures { IsObstacle admission.now.names.now row.now false admission.now.changed admission.now.interface result }
{
    let threads = [*row; 16];
    let pinned = [false; 16];
    let (changed, interface) = (&admission.changed, &admission.interface);
    match decide(&threads, &pinned, changed, interface, admission.names) {
        Verdict::Admitted => None,
        Verdict::Refused(refusal) => Some(refusal.effect),
    }
}

/// The ids of a set that a table has. The rows have only names of the table, so the other ids don't matter.
fn within(names: &Names, set: &NameSet) -> NameSet
    ensures { IsKnownPart names.now set.now result }
{
    let mut ids = NameSet::empty();
    for index in 0..names.len() {
        if let Some(id) = NameId::new(index) {
            if set.holds(id) {
                ids.add(id);
            }
        }
    }
    ids
}
