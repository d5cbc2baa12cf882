//! The test of the rows in force.
ghost use Rattle.std.specs.Prelude.{◌≡◌, ℕ, ◌<◌, All, IfSome, length};
ghost use Rattle.name_sets.specs.IdSet.{IsCommon};
ghost use Rattle.name_sets.specs.Least.{TellsLeast};
ghost use Rattle.con_freeness.specs.Decisions.{AreKnown, HasCommonIn, HasKnownIds, IsDecision};
ghost use Rattle.con_freeness.specs.Obstacles.{IsObstacle, IsAcross};

use crate::{Effect, Refusal, Row, Verdict, plain};
use name_sets::{NameId, NameSet, Names};

/// How sets are compared.
#[derive(Clone, Copy)]
enum Form {
    /// Eight words at a time.
    Lanes,
    /// One id at a time.
    Plain,
}

/// The verdict on a patch that changes some names, among these the interface of some. `in_force` has the row in force of
/// each slot, which is the empty row where no thread lives, and `pinned` says of which slots the thread is pinned. Each name
/// that a row has in common with the patch is in the table. Of several slots whose rows don't admit the patch the refusal
/// has the least one. The sets are compared eight words at a time.
pub fn decide(
    in_force: &[Row; 16],
    pinned: &[bool; 16],
    changed: &NameSet,
    interface: &NameSet,
    names: &Names,
) -> Verdict
    requires { All (HasCommonIn names.now changed.now interface.now) in_force.now }
    ensures verdict { IsDecision names.now in_force.now pinned.now changed.now interface.now result }
    ensures known { HasKnownIds names.now result }
{
    decide_by(Form::Lanes, in_force, pinned, changed, interface, names)
}

/// `decide`, one id at a time.
pub fn decide_plain(
    in_force: &[Row; 16],
    pinned: &[bool; 16],
    changed: &NameSet,
    interface: &NameSet,
    names: &Names,
) -> Verdict
    requires { All (HasCommonIn names.now changed.now interface.now) in_force.now }
    ensures verdict { IsDecision names.now in_force.now pinned.now changed.now interface.now result }
    ensures known { HasKnownIds names.now result }
{
    decide_by(Form::Plain, in_force, pinned, changed, interface, names)
}

/// The verdict, slot by slot.
fn decide_by(
    form: Form,
    in_force: &[Row; 16],
    pinned: &[bool; 16],
    changed: &NameSet,
    interface: &NameSet,
    names: &Names,
) -> Verdict
    requires { All (HasCommonIn names.now changed.now interface.now) in_force.now }
    ensures verdict { IsDecision names.now in_force.now pinned.now changed.now interface.now result }
    ensures known { HasKnownIds names.now result }
{
    for slot in 0..16usize {
        let row = &in_force[slot];
        let is_pinned = pinned[slot];
        if let Some(effect) = obstacle(form, row, is_pinned, changed, interface, names) {
            return Verdict::Refused(Refusal {
                slot: slot as u8,
                effect,
            });
        }
    }
    Verdict::Admitted
}

/// The effect by which a row doesn't admit a patch, if it doesn't: `Concrete` before the others.
fn obstacle(
    form: Form,
    row: &Row,
    pinned: bool,
    changed: &NameSet,
    interface: &NameSet,
    names: &Names,
) -> Option<Effect>
    requires { HasCommonIn names.now changed.now interface.now row.now }
    ensures effect { IsObstacle names.now row.now pinned changed.now interface.now result }
    ensures known { IfSome result (AreKnown names.now) }
{
    match least_common(form, interface, &row.concrete, names) {
        Some(name) => Some(Effect::Concrete(name)),
        None => across(form, row, pinned, changed, names),
    }
}

/// The effect by which a transaction doesn't admit changed names, if it doesn't.
fn across(form: Form, row: &Row, pinned: bool, changed: &NameSet, names: &Names) -> Option<Effect>
    requires prior { (id : ℕ) → IsCommon changed.now row.now.prior id → id < length names.now }
    requires future { (id : ℕ) → IsCommon changed.now row.now.future id → id < length names.now }
    ensures effect { IsAcross names.now row.now pinned changed.now result }
    ensures known { IfSome result (AreKnown names.now) }
{
    let Some(future) = least_common(form, changed, &row.future, names) else {
        return None;
    };
    if pinned {
        return Some(Effect::Pinned(future));
    }
    match least_common(form, changed, &row.prior, names) {
        Some(prior) => Some(Effect::Both(prior, future)),
        None => None,
    }
}

/// The common member of two sets whose text comes first.
fn least_common(form: Form, set: &NameSet, other: &NameSet, names: &Names) -> Option<NameId>
    requires { (id : ℕ) → IsCommon set.now other.now id → id < length names.now }
    ensures { TellsLeast names.now (IsCommon set.now other.now) result }
{
    match form {
        Form::Lanes => set.least_common(other, names),
        Form::Plain => plain::least_common(set, other, names),
    }
}
