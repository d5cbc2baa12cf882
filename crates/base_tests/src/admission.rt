//! Which slot and which names a refusal has, and that both forms of the test of admission agree.
ghost use Rattle.std.specs.Prelude.{ℕ, ◌<◌, length};
ghost use Rattle.name_sets.specs.IdSet.{Holds};

use crate::names::add_all;
use con_freeness::{Effect, Refusal, Row, Verdict, decide, decide_plain};
use name_sets::{NameId, NameSet, Names};

/// Texts that don't rise with their ids.
const TEXTS: &[&str] = &["h", "g", "main"];

/// The set of the first three names whose bits are 1.
fn set_of(names: &Names, bits: usize) -> NameSet
    ensures { (id : ℕ) → Holds result id → id < length names.now }
{
    let mut set = NameSet::empty();
    for place in 0..3usize {
        if place < names.len() && (bits >> place) & 1 == 1 {
            if let Some(id) = NameId::new(place) {
                set.add(id);
            }
        }
    }
    set
}

fn row_of(names: &Names, prior: usize, future: usize, concrete: usize) -> Row {
    Row {
        prior: set_of(names, prior),
        future: set_of(names, future),
        concrete: set_of(names, concrete),
    }
}

/// The verdict on the changed set and the interface set with these bits, if both forms of the test give it.
fn verdict_of(
    in_force: &[Row; 16],
    pinned: &[bool; 16],
    changed: usize,
    interface: usize,
    names: &Names,
) -> Option<Verdict> {
    let changed = set_of(names, changed);
    let interface = set_of(names, interface);
    let verdict = decide(in_force, pinned, &changed, &interface, names);
    if verdict == decide_plain(in_force, pinned, &changed, &interface, names) {
        Some(verdict)
    } else {
        None
    }
}

/// What is in force: the concrete effect of slot 9, the prior and the future effect of slot 4, and whether slot 4 is pinned.
type InForce = (usize, usize, usize, bool);

/// The verdict on a patch of all names that has these in its interface.
fn verdict_at(names: &Names, in_force: InForce, interface: usize) -> Option<Verdict> {
    let (concrete, prior, future, is_pinned) = in_force;
    let mut rows = [row_of(names, 0, 0, 0); 16];
    rows[9] = row_of(names, 0, 0, concrete);
    rows[4] = row_of(names, prior, future, 0);
    let mut pinned = [false; 16];
    pinned[4] = is_pinned;
    verdict_of(&rows, &pinned, 7, interface, names)
}

fn refused(slot: u8, effect: Effect) -> Option<Verdict> {
    Some(Verdict::Refused(Refusal { slot, effect }))
}

#[test]
fn the_least_slot_and_the_least_names(rt: HostRuntime) {
    let h = NameId::new(0).expect(&rt, "an id");
    let g = NameId::new(1).expect(&rt, "an id");
    let mut names = Names::new(rt.alloc());
    assert!(rt; add_all(&mut names, TEXTS).is_ok());
    let admitted = Some(Verdict::Admitted);
    assert!(rt; verdict_at(&names, (0, 0, 0, false), 7) == admitted);
    assert!(rt; verdict_at(&names, (1, 0, 0, false), 7) == refused(9, Effect::Concrete(h)));
    assert!(rt; verdict_at(&names, (1, 0, 0, false), 2) == admitted);
    assert!(rt; verdict_at(&names, (1, 3, 1, false), 7) == refused(4, Effect::Both(g, h)));
    assert!(rt; verdict_at(&names, (1, 3, 1, true), 7) == refused(4, Effect::Pinned(h)));
}

/// Whether both forms agree on each patch of the three names, with a row in one slot.
fn agree_at(row: Row, is_pinned: bool, names: &Names) -> bool {
    let mut rows = [row_of(names, 0, 0, 0); 16];
    let mut pinned = [false; 16];
    rows[7] = row;
    pinned[7] = is_pinned;
    for bits in 0..64usize {
        if verdict_of(&rows, &pinned, bits & 7, bits >> 3, names).is_none() {
            return false;
        }
    }
    true
}

#[test]
fn both_forms_agree(rt: HostRuntime) {
    let mut names = Names::new(rt.alloc());
    assert!(rt; add_all(&mut names, TEXTS).is_ok());
    for bits in 0..1024usize {
        let row = row_of(&names, bits & 7, (bits >> 3) & 7, (bits >> 6) & 7);
        assert!(rt; agree_at(row, bits >= 512, &names));
    }
}
