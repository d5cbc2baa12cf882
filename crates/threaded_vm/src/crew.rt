ghost use Rattle.std.specs.Prelude.{◌≡◌, ◌+◌, ◌<◌, ◌≤◌, [], All, length, IfSome, None};
ghost use Rattle.std.specs.Vec.{vec_capacity};
ghost use Rattle.pass_lock.specs.Passes.{IsFreeAt};
ghost use Rattle.threaded_vm.specs.Crews.{AreFree, AreFresh};
ghost use Rattle.threaded_vm.specs.Locked.{IsOverBy};

use crate::seat::{Round, Seat};
use crate::{Gate, Held, Load, Opening, Shared};
use dsu_runs::Ahead;
use pass_lock::{Pass, PassLock, Turn};
use std::alloc::Global;
use std::sync::Wait;
use std::sync::atomic::{AtomicU64, Ordering};
use std::thread;

// How many rounds without an event a worker makes before it sleeps, or leaves its thread to another worker.
const PATIENCE: u32 = 1000;

/// What the workers of a run share.
#[derive(Drop)]
pub(crate) struct Crew<E: Ahead + Drop, O: Opening> {
    pub lock: PassLock<Held<E, O>>,
    pub alloc: Global,
    /// How many workers there are.
    count: u64,
    /// How many are at work at once.
    present: AtomicU64,
    /// How many times something changed.
    changes: AtomicU64,
    /// How many workers sleep until something changes.
    asleep: AtomicU64,
}

impl<E: Ahead + Drop, O: Opening> Crew<E, O> {
    pub fn new(lock: PassLock<Held<E, O>>, alloc: Global, count: u64) -> Crew<E, O>
        ensures { result.lock ≡ lock }
    {
        Crew {
            lock,
            alloc,
            count,
            present: AtomicU64::new(0),
            changes: AtomicU64::new(0),
            asleep: AtomicU64::new(0),
        }
    }

    /// Lets the workers that sleep look again.
    pub fn changed(&self) {
        self.changes.fetch_add(1, Ordering::SeqCst);
        if self.asleep.load(Ordering::SeqCst) != 0 {
            self.changes.wake_all();
        }
    }

    // Leaves the processor to others, and sleeps after some rounds until something changes.
    fn pause<R: Wait>(&self, rt: &R, seen: u64, rounds: u32) {
        if rounds < PATIENCE {
            thread::yield_now();
            return;
        }
        self.asleep.fetch_add(1, Ordering::SeqCst);
        self.changes.park(rt, (seen % (1 << 32)) as u32);
        self.asleep.fetch_sub(1, Ordering::SeqCst);
    }

    // Whether a worker that found nothing to do for some rounds must leave, since not all are at work: where there are fewer
    // threads than workers, another one begins only when one leaves.
    fn must_leave(&self, rounds: u32) -> bool {
        rounds >= PATIENCE && self.present.load(Ordering::SeqCst) < self.count
    }

    /// Gives the workers their seats, with passes that have taken no turn: slot t is one of worker t modulo their number.
    pub fn seat_all(
        &self,
        mut passes: Vec<Pass<Held<E, O>>>,
        mut loads: Vec<Load<E, O>>,
        workers: &mut Vec<Vec<Seat<E, O>>>,
    )
        requires passes { AreFresh self.now.lock.table passes.items × (length passes.items ≤ 64) }
        requires loads { length loads.items ≡ length passes.items }
        requires some { 0 < length workers.old.items }
        requires room { All (λ w. (w.items ≡ []) × (length passes.items ≤ vec_capacity w)) workers.old.items }
        ensures some { 0 < length workers.new.items }
        ensures free { All (λ w. AreFree self.now.lock.table w.items) workers.new.items }
    {
        while let Some(pass) = passes.pop() {
            let slot = passes.len() as u8;
            let seat = Seat::new(slot, pass, loads.pop().unwrap());
            let worker = usize::from(slot) % workers.len();
            workers[worker].push_reserved(seat);
        }
    }
}

/// Makes rounds over the slots of a worker, until a turn finds that the run is over, or another worker needs the thread.
pub(crate) fn work<E: Ahead + Drop, O: Opening, R: Wait, G: Gate>(
    rt: &R,
    crew: &Crew<E, O>,
    seats: &mut Vec<Seat<E, O>>,
    gate: &G,
)
    requires { AreFree crew.now.lock.table seats.old.items }
    ensures { AreFree crew.now.lock.table seats.new.items }
{
    crew.present.fetch_add(1, Ordering::SeqCst);
    let mut idle = 0;
    for _ in rt.forever() {
        let seen = crew.changes.load(Ordering::SeqCst);
        match look_at_all(rt, crew, seats, gate) {
            Round::Ended => break,
            Round::Acted => idle = 0,
            Round::Nothing => {
                if crew.must_leave(idle) {
                    break;
                }
                crew.pause(rt, seen, idle);
                idle = idle.saturating_add(1);
            }
        }
    }
    crew.present.fetch_sub(1, Ordering::SeqCst);
}

// One look at each slot of a worker.
fn look_at_all<E: Ahead + Drop, O: Opening, R: Wait, G: Gate>(
    rt: &R,
    crew: &Crew<E, O>,
    seats: &mut Vec<Seat<E, O>>,
    gate: &G,
) -> Round
    requires { AreFree crew.now.lock.table seats.old.items }
    ensures { AreFree crew.now.lock.table seats.new.items }
{
    let mut round = Round::Nothing;
    for place in 0..seats.len() {
        match seats[place].turn(rt, crew, gate) {
            Round::Acted => round = Round::Acted,
            Round::Nothing => {}
            Round::Ended => return Round::Ended,
        }
    }
    round
}

/// The value under the lock, if the run is over. Then the lock is of no use any more.
pub(crate) fn take_if_over<E: Ahead + Drop, O: Opening, R: Wait>(
    rt: &R,
    crew: &Crew<E, O>,
    pass: &mut Pass<Held<E, O>>,
) -> Option<Shared<E, O>>
    requires { IsFreeAt crew.now.lock.table pass.old }
    ensures over { IfSome result IsOverBy }
    ensures pass { result ≡ None → IsFreeAt crew.now.lock.table pass.new }
{
    let turn = crew.lock.take(rt, pass);
    if turn.value.shared.is_over() {
        let Turn { value } = turn;
        return Some(Box::into_inner(value.shared));
    }
    crew.lock.give(pass, turn);
    None
}
