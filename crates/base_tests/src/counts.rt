//! Threads that count under one lock.
ghost use Rattle.std.specs.Prelude.{◌≡◌, ◌<◌, ◌≤◌, List, All, length};
ghost use Rattle.pass_lock.specs.Histories.{Adds};
ghost use Rattle.pass_lock.specs.Passes.{IsFreeAt, IsFreePassOf};
ghost use Rattle.base_tests.specs.Tallies.{tallied, AreFresh};

use pass_lock::{Pass, PassLock, Told};
use std::alloc::Global;
use std::sync::Wait;
use std::thread::{Threads, for_each_mut};

/// The numbers of the passes that took the turns, in order.
#[derive(Drop)]
struct Tally {
    by: Vec<u32>,
}

impl Told for Tally {
    type What = ();

    ghost use Rattle.std.specs.Prelude.{[]};
    ghost use Rattle.base_tests.specs.Tallies.{tallied};

    ghost history = { λ t. tallied t.by.items };

    ghost notices = { λ _. [] };
}

impl Tally {
    // False where there is no memory for one more.
    fn add(&mut self, number: u32) -> bool
        ensures { (added : List (Unit {0})) × Adds number (tallied self.old.by.items) added (tallied self.new.by.items) }
    {
        if self.by.reserve(1).is_err() {
            return false;
        }
        self.by.push_reserved(number);
        true
    }
}

// One turn, which adds the pass's number.
fn count<R: Wait>(rt: &R, lock: &PassLock<Tally>, pass: &mut Pass<Tally>, number: u32) -> bool
    requires { IsFreePassOf lock.now pass.old × (pass.old.number ≡ number) }
    ensures { IsFreePassOf lock.now pass.new × (pass.new.number ≡ number) }
{
    let mut turn = lock.take(rt, pass);
    let added = turn.value.add(number);
    lock.give(pass, turn);
    added
}

fn count_all<R: Wait>(
    rt: &R,
    lock: &PassLock<Tally>,
    pass: &mut Pass<Tally>,
    number: u32,
    turns: u32,
)
    requires { IsFreePassOf lock.now pass.old × (pass.old.number ≡ number) }
    ensures { IsFreePassOf lock.now pass.new × (pass.new.number ≡ number) }
{
    for _ in 0..turns {
        count(rt, lock, pass, number);
    }
}

// Each pass takes as many turns, in a thread of its own.
fn all_count<R: Threads + Wait + Sync>(
    rt: &R,
    lock: &PassLock<Tally>,
    passes: &mut [Pass<Tally>],
    turns: u32,
)
    requires { (0 < length passes.old) × (length passes.old ≤ 64) × AreFresh lock.now.table passes.old }
    ensures count { length passes.new ≡ length passes.old }
    ensures free { All (IsFreeAt lock.now.table) passes.new }
{
    let threads = passes.len();
    for_each_mut(
        rt,
        passes,
        threads,
        &|number: usize, pass: &mut Pass<Tally>|
            requires { IsFreePassOf lock.now pass.old × (pass.old.number ≡ number) × (number < 64) }
            ensures { IsFreePassOf lock.entry.now pass.new }
        { count_all(rt, lock, pass, number as u32, turns) },
    );
}

// The history of as many threads, each with as many turns.
fn counted<R: Threads + Wait + Sync>(
    rt: &R,
    alloc: Global,
    threads: u32,
    turns: u32,
) -> Option<Vec<u32>>
    requires { (1 ≤ threads) × (threads ≤ 64) }
{
    let tally = Tally {
        by: Vec::new(alloc),
    };
    let Ok((lock, mut passes)) = PassLock::make(alloc, tally, threads) else {
        return None;
    };
    all_count(rt, &lock, passes.as_mut_slice(), turns);
    let Tally { by } = lock.close(passes);
    Some(by)
}

// How many turns were those of a pass.
fn turns_of(by: &[u32], number: u32) -> usize {
    let mut turns = 0usize;
    for n in by {
        if *n == number {
            turns = turns.saturating_add(1);
        }
    }
    turns
}

#[test]
fn two_threads_count(rt: HostRuntime) {
    let by = counted(&rt, rt.alloc(), 2, 50_000).expect(&rt, "memory");
    assert!(rt; by.len() == 100_000);
    assert!(rt; turns_of(&by, 0) == 50_000);
}

#[test]
fn eight_threads_count(rt: HostRuntime) {
    let by = counted(&rt, rt.alloc(), 8, 12_500).expect(&rt, "memory");
    assert!(rt; by.len() == 100_000);
    for number in 0..8u32 {
        assert!(rt; turns_of(&by, number) == 12_500, "pass {number}");
    }
}
