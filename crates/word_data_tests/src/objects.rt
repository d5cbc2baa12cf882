//! Objects.
use crate::Bench;
use name_sets::NameId;
use run_types::TrapKind;
use word_data::{Did, SharedStop};

const NULL: Did = Did::Trap(TrapKind::Null);

const STALE: Did = Did::Trap(TrapKind::Stale);

/// The handle of a new object; 0 where there is no room.
fn created(bench: &mut Bench) -> Option<u64> {
    let tag = NameId::new(4)?;
    bench.given(SharedStop::New(tag))
}

#[test]
fn fields_are_0_until_they_are_written(rt: HostRuntime) {
    let mut bench = Bench::new(rt.alloc(), 1).expect(&rt, "memory");
    let h = created(&mut bench).expect(&rt, "room");
    for place in 0..17 {
        assert!(rt; bench.goes(SharedStop::ReadField(place), &[5, h], &[5, 0]));
    }
    assert!(rt; bench.goes(SharedStop::WriteField(15), &[5, h, 9], &[5, 9]));
    assert!(rt; bench.goes(SharedStop::ReadField(14), &[h], &[0]));
    assert!(rt; bench.goes(SharedStop::ReadField(15), &[h], &[9]));
}

#[test]
fn a_place_past_the_fields_stays_0(rt: HostRuntime) {
    let mut bench = Bench::new(rt.alloc(), 1).expect(&rt, "memory");
    let h = created(&mut bench).expect(&rt, "room");
    assert!(rt; bench.goes(SharedStop::WriteField(16), &[h, 9], &[9]));
    assert!(rt; bench.goes(SharedStop::ReadField(16), &[h], &[0]));
    assert!(rt; bench.goes(SharedStop::ReadField(0), &[h], &[0]));
}

#[test]
fn a_full_store_gives_null(rt: HostRuntime) {
    let mut bench = Bench::new(rt.alloc(), 2).expect(&rt, "memory");
    let a = created(&mut bench).expect(&rt, "room");
    let b = created(&mut bench).expect(&rt, "room");
    assert!(rt; a != 0 && b != 0 && a != b);
    assert_eq!(rt; created(&mut bench), Some(0));
    assert!(rt; bench.goes(SharedStop::Free, &[5, a], &[5, 0]));
    let c = created(&mut bench).expect(&rt, "room");
    assert!(rt; c != 0 && c != a && c != b);
    assert_eq!(rt; created(&mut bench), Some(0));
}

#[test]
fn a_handle_of_an_ended_object_traps(rt: HostRuntime) {
    let mut bench = Bench::new(rt.alloc(), 1).expect(&rt, "memory");
    let a = created(&mut bench).expect(&rt, "room");
    assert!(rt; bench.goes(SharedStop::Free, &[a], &[0]));
    let b = created(&mut bench).expect(&rt, "room");
    for h in [a, 1, b.wrapping_add(1), u64::MAX] {
        assert!(rt; bench.comes(0, SharedStop::ReadField(0), &[h], STALE, &[h]));
        assert!(rt; bench.comes(0, SharedStop::WriteField(0), &[h, 9], STALE, &[h, 9]));
        assert!(rt; bench.comes(0, SharedStop::Free, &[h], STALE, &[h]));
    }
    assert!(rt; bench.goes(SharedStop::ReadField(0), &[b], &[0]));
}

#[test]
fn null_traps_but_for_free(rt: HostRuntime) {
    let mut bench = Bench::new(rt.alloc(), 1).expect(&rt, "memory");
    assert!(rt; bench.comes(0, SharedStop::ReadField(0), &[0], NULL, &[0]));
    assert!(rt; bench.comes(0, SharedStop::WriteField(0), &[0, 9], NULL, &[0, 9]));
    assert!(rt; bench.goes(SharedStop::Free, &[5, 0], &[5, 0]));
}
