//! Mutexes.
use crate::Bench;
use run_types::TrapKind;
use word_data::{Did, SharedStop};

const RELOCK: Did = Did::Trap(TrapKind::Relock);

const UNLOCK: Did = Did::Trap(TrapKind::Unlock);

const HELD: Did = Did::Trap(TrapKind::MutexHeld);

#[test]
fn two_threads_at_one_mutex(rt: HostRuntime) {
    let mut bench = Bench::new(rt.alloc(), 0).expect(&rt, "memory");
    assert!(rt; bench.comes(2, SharedStop::Lock(1), &[5], Did::On(2), &[5, 0]));
    assert!(rt; bench.comes(15, SharedStop::Lock(1), &[5], Did::Waits(2), &[5]));
    assert!(rt; bench.comes(15, SharedStop::Unlock(1), &[5], UNLOCK, &[5]));
    assert!(rt; bench.comes(2, SharedStop::Unlock(1), &[5], Did::On(2), &[5, 0]));
    assert!(rt; bench.comes(15, SharedStop::Lock(1), &[5], Did::On(2), &[5, 0]));
    assert!(rt; bench.comes(2, SharedStop::Lock(1), &[5], Did::Waits(15), &[5]));
}

#[test]
fn a_holder_traps(rt: HostRuntime) {
    let mut bench = Bench::new(rt.alloc(), 0).expect(&rt, "memory");
    assert!(rt; bench.goes(SharedStop::InitMutex(2), &[], &[0]));
    assert!(rt; bench.comes(0, SharedStop::Unlock(2), &[5], UNLOCK, &[5]));
    assert!(rt; bench.goes(SharedStop::Lock(2), &[], &[0]));
    assert!(rt; bench.comes(0, SharedStop::Lock(2), &[5], RELOCK, &[5]));
    assert!(rt; bench.comes(1, SharedStop::InitMutex(2), &[5], HELD, &[5]));
    assert!(rt; bench.goes(SharedStop::Lock(0), &[], &[0]));
    assert!(rt; bench.goes(SharedStop::InitMutex(1), &[], &[0]));
}

#[test]
fn a_number_of_no_mutex_is_a_free_one(rt: HostRuntime) {
    let mut bench = Bench::new(rt.alloc(), 0).expect(&rt, "memory");
    for n in [3, 2048, u32::MAX] {
        assert!(rt; bench.goes(SharedStop::InitMutex(n), &[], &[0]));
        assert!(rt; bench.goes(SharedStop::Lock(n), &[], &[0]));
        assert!(rt; bench.comes(1, SharedStop::Lock(n), &[], Did::On(1), &[0]));
        assert!(rt; bench.comes(0, SharedStop::Unlock(n), &[5], UNLOCK, &[5]));
    }
}
