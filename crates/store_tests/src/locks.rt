//! Each call on a mutex from each state that three threads leave it in.
use name_sets::{MOST_NAMES, NameId};
use program_locks::{LockAnswer, Locks, MOST_SLOTS};
use run_types::TrapKind;
use std::alloc::{AllocError, Global};

const DONE: LockAnswer = LockAnswer::Done;

const RELOCK: LockAnswer = LockAnswer::Trap(TrapKind::Relock);

const UNLOCK: LockAnswer = LockAnswer::Trap(TrapKind::Unlock);

const HELD: LockAnswer = LockAnswer::Trap(TrapKind::MutexHeld);

/// A mutex's holder, the slot of the caller, and what `lock`, `unlock` and `init` answer.
static CASES: [(Option<u8>, u8, LockAnswer, LockAnswer, LockAnswer); 12] = [
    (None, 0, DONE, UNLOCK, DONE),
    (None, 1, DONE, UNLOCK, DONE),
    (None, 15, DONE, UNLOCK, DONE),
    (Some(0), 0, RELOCK, DONE, HELD),
    (Some(0), 1, LockAnswer::Waits(0), UNLOCK, HELD),
    (Some(0), 15, LockAnswer::Waits(0), UNLOCK, HELD),
    (Some(1), 0, LockAnswer::Waits(1), UNLOCK, HELD),
    (Some(1), 1, RELOCK, DONE, HELD),
    (Some(1), 15, LockAnswer::Waits(1), UNLOCK, HELD),
    (Some(15), 0, LockAnswer::Waits(15), UNLOCK, HELD),
    (Some(15), 1, LockAnswer::Waits(15), UNLOCK, HELD),
    (Some(15), 15, RELOCK, DONE, HELD),
];

/// What a call answers, and who holds the mutex then.
type Outcome = (LockAnswer, Option<u8>);

/// A call on a mutex.
#[derive(Clone, Copy)]
enum Call {
    Lock,
    Unlock,
    Init,
}

/// What a call comes to on the second of three mutexes, held as it says, while the other two are held by the slots 2 and 3.
/// `None` where there is no such slot, or where the call changes another mutex.
fn outcome(
    alloc: Global,
    holder: Option<u8>,
    slot: u8,
    call: Call,
) -> Result<Option<Outcome>, AllocError> {
    let mut locks = Locks::new(alloc, 3)?;
    let (Some(before), Some(name), Some(after)) = (NameId::new(0), NameId::new(1), NameId::new(2))
    else {
        return Ok(None);
    };
    if slot >= MOST_SLOTS {
        return Ok(None);
    }
    locks.lock(before, 2);
    locks.lock(after, 3);
    if let Some(holder) = holder {
        if holder >= MOST_SLOTS {
            return Ok(None);
        }
        locks.lock(name, holder);
    }
    let answer = match call {
        Call::Lock => locks.lock(name, slot),
        Call::Unlock => locks.unlock(name, slot),
        Call::Init => locks.init(name),
    };
    if locks.holder(before) != Some(2) || locks.holder(after) != Some(3) {
        return Ok(None);
    }
    Ok(Some((answer, locks.holder(name))))
}

#[test]
fn mutexes_are_locked_as_listed(rt: HostRuntime) {
    for (holder, slot, answer, _, _) in &CASES {
        let is_taken = *answer == DONE;
        let then = if is_taken { Some(*slot) } else { *holder };
        let found = outcome(rt.alloc(), *holder, *slot, Call::Lock).expect(&rt, "memory");
        assert!(rt; found == Some((*answer, then)), "{}", slot);
    }
}

#[test]
fn mutexes_are_unlocked_as_listed(rt: HostRuntime) {
    for (holder, slot, _, answer, _) in &CASES {
        let then = if *answer == DONE { None } else { *holder };
        let found = outcome(rt.alloc(), *holder, *slot, Call::Unlock).expect(&rt, "memory");
        assert!(rt; found == Some((*answer, then)), "{}", slot);
    }
}

#[test]
fn mutexes_are_initialised_as_listed(rt: HostRuntime) {
    for (holder, slot, _, _, answer) in &CASES {
        let found = outcome(rt.alloc(), *holder, *slot, Call::Init).expect(&rt, "memory");
        assert!(rt; found == Some((*answer, *holder)), "{}", slot);
    }
}

/// Whether a mutex is free again once it is forgotten.
fn is_forgotten(alloc: Global) -> Result<bool, AllocError> {
    let mut locks = Locks::new(alloc, 2)?;
    let Some(name) = NameId::new(1) else {
        return Ok(false);
    };
    locks.lock(name, 7);
    let was_held = locks.holder(name) == Some(7);
    locks.forget(name);
    Ok(was_held && locks.holder(name).is_none())
}

#[test]
fn forgotten_mutexes_are_free(rt: HostRuntime) {
    assert!(rt; is_forgotten(rt.alloc()).expect(&rt, "memory"));
}

/// Whether nobody holds the last of all the mutexes that a program can name.
fn is_last_free(alloc: Global) -> Result<bool, AllocError> {
    let locks = Locks::new(alloc, MOST_NAMES)?;
    match NameId::new(MOST_NAMES - 1) {
        Some(last) => Ok(locks.holder(last).is_none()),
        None => Ok(false),
    }
}

#[test]
fn mutexes_are_free_at_first(rt: HostRuntime) {
    assert!(rt; is_last_free(rt.alloc()).expect(&rt, "memory"));
}
