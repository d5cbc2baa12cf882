ghost use Rattle.std.specs.Prelude.{◌≡◌, ◌+◌, ◌<◌, ◌≤◌, [], All, length, IfOk, IfErr};
ghost use Rattle.std.specs.Vec.{vec_capacity};
ghost use Rattle.source_model.specs.Guards.{Guard, Setup};
ghost use Rattle.pass_lock.specs.Passes.{IsFreeAt};
ghost use Rattle.threaded_vm.specs.Opened.{GoesOn, HasRoom, IsARun};
ghost use Rattle.threaded_vm.specs.Locked.{IsOverBy};
ghost use Rattle.threaded_vm.specs.Crews.{AreFree, AreFresh};
ghost use Rattle.threaded_vm.specs.Workers.{RanByWorkers};

use crate::crew::{Crew, take_if_over, work};
use crate::seat::Seat;
use crate::{Gate, Held, Load, Noted, Opening, Shared};
use core::thread::Stack;
use dsu_runs::{Ahead, Live, Ran};
use pass_lock::Pass;
use run_types::Event;
use std::alloc::{AllocError, Global};
use std::marker::Brand;
use std::mem;
use std::sync::Wait;
use std::thread::{Promise, Scope, Threads, scope, scope_env};

// How many passes a lock may have. Each slot has one, and there is one more.
const MOST_PASSES: u8 = 64;

// The stack of a worker's thread. A preparation recurses as deep as a text's expressions are. It is address space until it is used.
const STACK_BYTES: usize = 1 << 30;

/// Lets workers make the events of a run that goes on, until it has ended: slot t belongs to worker t modulo their number, of
/// which there are at least one and at most as many as slots. An offer that is due is opened, prepared and closed by the worker
/// that finds it due. Out of memory before the workers start, or with no slot, or with more slots than a lock has passes for, the
/// run is as it was.
///
/// A worker recurses as deep as the expressions of the texts are. Each thread that starts here has a stack of 1 GiB of address
/// space. The last worker works in the calling thread, as do those for which no thread can be made, so the caller gives it as much.
pub fn run_workers<E: Ahead + Drop + Send, R: Threads + Wait + Sync, G: Gate + Sync>(
    rt: &R,
    alloc: Global,
    workers: u32,
    live: Live<E>,
    gate: &G,
) -> Result<Ran<E>, Live<E>>
    requires { (setup : Setup) × (g : Guard) × GoesOn E.is_at setup g live.history.items live.engine }
    ensures ran { (setup : Setup) (g : Guard) → GoesOn E.is_at setup g live.history.items live.engine
        → IfOk result (RanByWorkers E.is_at E.told E.faults setup g live) }
    ensures asked { IfOk result (λ ran. E.asks ran.engine) }
    ensures unchanged { IfErr result (λ same. same ≡ live) }
{
    // A check-in comes after a move that led to it, but for those at which the threads are now, and an offer is opened and closed once;
    // one may be open now.
    let room = 2 * live.left as usize
        + usize::from(live.engine.slots())
        + 2 * usize::from(live.engine.offers())
        + 1;
    run_opened::<E, Brand, R, G>(rt, alloc, workers, live, room, gate)
}

// The same, of a run that went on as the lock's type says.
fn run_opened<
    E: Ahead + Drop + Send,
    O: Opening + Send + Sync,
    R: Threads + Wait + Sync,
    G: Gate + Sync,
>(
    rt: &R,
    alloc: Global,
    workers: u32,
    live: Live<E>,
    room: usize,
    gate: &G,
) -> Result<Ran<E>, Live<E>>
    requires history { O.opened.history ≡ live.history.items }
    requires told { O.opened.told ≡ E.told live.engine }
    requires faults { O.opened.faults ≡ E.faults live.engine }
    requires left { O.opened.left ≡ live.left }
    requires room { O.opened.room ≡ room }
    requires run { IsARun O.opened }
    requires enough { (setup : Setup) (first : Guard) → O.opened.at setup first → HasRoom O.opened setup first }
    requires begun { (setup : Setup) (g : Guard) → O.opened.at setup g → GoesOn E.is_at setup g live.history.items live.engine }
    ensures ran { (setup : Setup) (g : Guard) → O.opened.at setup g → IfOk result (RanByWorkers E.is_at E.told E.faults setup g live) }
    ensures asked { IfOk result (λ ran. E.asks ran.engine) }
    ensures unchanged { IfErr result (λ same. same ≡ live) }
{
    let slots = live.engine.slots();
    if slots == 0 || slots >= MOST_PASSES {
        return Err(live);
    }
    let count = workers.clamp(1, u32::from(slots)) as u8;
    let Ok(stock) = Stock::<E, O>::take(alloc, &live, slots, count, room) else {
        return Err(live);
    };
    let Live {
        engine,
        history,
        last,
        left,
    } = live;
    let Stock {
        whole,
        noted,
        loads,
        workers,
    } = stock;
    let shared: Shared<E, O> = Shared::new(engine, noted, left);
    match Held::lock(alloc, shared, u32::from(slots) + 1) {
        Ok((lock, passes)) => {
            let crew = Crew::new(lock, alloc, u64::from(count));
            let value = run_crew(rt, crew, passes, loads, workers, gate);
            Ok(value.into_ran(whole))
        }
        Err(same) => Err(same.into_live(history, last)),
    }
}

/// The memory of a run by workers, but for the lock.
#[derive(Drop)]
struct Stock<E: Ahead + Drop, O: Opening> {
    /// The events so far, with room for those of the workers.
    whole: Vec<Event>,
    noted: Vec<Noted>,
    loads: Vec<Load<E, O>>,
    /// The workers without seats.
    workers: Vec<Vec<Seat<E, O>>>,
}

impl<E: Ahead + Drop, O: Opening> Stock<E, O> {
    fn take(
        alloc: Global,
        live: &Live<E>,
        slots: u8,
        count: u8,
        room: usize,
    ) -> Result<Stock<E, O>, AllocError>
        requires begun { (setup : Setup) (g : Guard) → O.opened.at setup g → E.is_at setup g live.now.engine }
        ensures whole { IfOk result (λ r. (r.whole.items ≡ live.now.history.items) × (length live.now.history.items + room ≤ vec_capacity r.whole)) }
        ensures noted { IfOk result (λ r. (r.noted.items ≡ []) × (room ≤ vec_capacity r.noted)) }
        ensures loads { IfOk result (λ r. length r.loads.items ≡ slots) }
        ensures workers { IfOk result (λ r. (length r.workers.items ≡ count)
            × All (λ w. (w.items ≡ []) × (slots ≤ vec_capacity w)) r.workers.items) }
    {
        Ok(Stock {
            whole: with_room(alloc, live.history.as_slice(), room)?,
            noted: Vec::with_capacity(alloc, room)?,
            loads: loads(alloc, &live.engine, slots)?,
            workers: no_seats(alloc, count, slots)?,
        })
    }
}

// The events so far, with room for more.
fn with_room(alloc: Global, events: &[Event], room: usize) -> Result<Vec<Event>, AllocError>
    ensures { IfOk result (λ whole. (whole.items ≡ events.now) × (length events.now + room ≤ vec_capacity whole)) }
{
    let Some(most) = events.len().checked_add(room) else {
        return Err(AllocError);
    };
    let mut whole = Vec::with_capacity(alloc, most)?;
    whole.extend_from_slice(events)?;
    Ok(whole)
}

// The private work of each slot's thread.
fn loads<E: Ahead, O: Opening>(
    alloc: Global,
    engine: &E,
    slots: u8,
) -> Result<Vec<Load<E, O>>, AllocError>
    requires { (setup : Setup) (g : Guard) → O.opened.at setup g → E.is_at setup g engine.now }
    ensures { IfOk result (λ loads. length loads.items ≡ slots) }
{
    let mut loads = Vec::with_capacity(alloc, usize::from(slots))?;
    for _made in 0..slots {
        loads.push_reserved(Load::new(engine, alloc)?);
    }
    Ok(loads)
}

// So many workers without seats, each with room for this many.
fn no_seats<E: Ahead + Drop, O: Opening>(
    alloc: Global,
    count: u8,
    seats: u8,
) -> Result<Vec<Vec<Seat<E, O>>>, AllocError>
    ensures count { IfOk result (λ workers. length workers.items ≡ count) }
    ensures room { IfOk result (λ workers. All (λ w. (w.items ≡ []) × (seats ≤ vec_capacity w)) workers.items) }
{
    let mut workers = Vec::with_capacity(alloc, usize::from(count))?;
    for _made in 0..count {
        workers.push_reserved(Vec::with_capacity(alloc, usize::from(seats))?);
    }
    Ok(workers)
}

// Has the workers work until the run is over, and takes the value out of the lock. The last pass finds that the run is over.
fn run_crew<
    E: Ahead + Drop + Send,
    O: Opening + Send + Sync,
    R: Threads + Wait + Sync,
    G: Gate + Sync,
>(
    rt: &R,
    crew: Crew<E, O>,
    mut passes: Vec<Pass<Held<E, O>>>,
    loads: Vec<Load<E, O>>,
    mut workers: Vec<Vec<Seat<E, O>>>,
    gate: &G,
) -> Shared<E, O>
    requires passes { AreFresh crew.lock.table passes.items × (length passes.items ≤ 64) }
    requires loads { length loads.items + 1 ≡ length passes.items }
    requires some { 0 < length workers.items }
    requires room { All (λ w. (w.items ≡ []) × (length loads.items ≤ vec_capacity w)) workers.items }
    ensures { IsOverBy result }
{
    let mut last = passes.pop().unwrap();
    crew.seat_all(passes, loads, &mut workers);
    for _ in rt.forever() {
        make_rounds(rt, &crew, &mut workers, gate);
        if let Some(value) = take_if_over(rt, &crew, &mut last) {
            return value;
        }
    }
    unreachable!()
}

// Each worker in a thread of its own, the last one in this thread. Where no thread can be made, a worker works in this thread after
// those that follow it.
fn make_rounds<
    E: Ahead + Drop + Send,
    O: Opening + Send + Sync,
    R: Threads + Wait + Sync,
    G: Gate + Sync,
>(rt: &R, crew: &Crew<E, O>, workers: &mut Vec<Vec<Seat<E, O>>>, gate: &G)
    requires some { 0 < length workers.old.items }
    requires free { All (λ w. AreFree crew.now.lock.table w.items) workers.old.items }
    ensures some { 0 < length workers.new.items }
    ensures free { All (λ w. AreFree crew.now.lock.table w.items) workers.new.items }
{
    let mut all = mem::replace(workers, Vec::new(crew.alloc));
    *workers = scope(
        scope_env(),
        rt,
        move |scope| -> Vec<Vec<Seat<E, O>>>
            requires { (0 < length all.items) × All (λ w. AreFree crew.now.lock.table w.items) all.items }
            ensures { (0 < length result.items) × All (λ w. AreFree crew.entry.now.lock.table w.items) result.items }
        {
            make_rounds_from(rt, scope, crew, &mut all, 0, gate);
            all
        },
    );
}

// The same, of the workers from this one on.
fn make_rounds_from<
    's,
    'e: 's,
    E: Ahead + Drop + Send,
    O: Opening + Send + Sync,
    R: Threads + Wait + Sync,
    G: Gate + Sync,
>(
    rt: &'e R,
    scope: &Scope<'s, &'e ()>,
    crew: &'e Crew<E, O>,
    workers: &mut Vec<Vec<Seat<E, O>>>,
    at: usize,
    gate: &'e G,
)
    requires at { at < length workers.old.items }
    requires free { All (λ w. AreFree crew.now.lock.table w.items) workers.old.items }
    ensures count { length workers.new.items ≡ length workers.old.items }
    ensures free { All (λ w. AreFree crew.now.lock.table w.items) workers.new.items }
{
    if at + 1 == workers.len() {
        work(rt, crew, &mut workers[at], gate);
        return;
    }
    let given = mem::replace(&mut workers[at], Vec::new(crew.alloc));
    let run = move || -> Vec<Seat<E, O>>
        requires { AreFree crew.now.lock.table given.items }
        ensures { AreFree crew.entry.now.lock.table result.items }
    {
        let mut seats = given;
        work(rt, crew, &mut seats, gate);
        seats
    };
    let stack = Stack::new().stack_size(STACK_BYTES);
    match stack.spawn_scoped_with(scope, FreeSeats { crew }, run) {
        Ok(thread) => {
            make_rounds_from(rt, scope, crew, workers, at + 1, gate);
            workers[at] = thread.join(rt);
        }
        Err(refused) => {
            make_rounds_from(rt, scope, crew, workers, at + 1, gate);
            workers[at] = (refused.value)();
        }
    }
}

// A worker's thread hands back seats whose passes have no turn.
#[derive(Drop)]
struct FreeSeats<'a, E: Ahead + Drop, O: Opening> {
    crew: &'a Crew<E, O>,
}

impl<'a, E: Ahead + Drop, O: Opening> Promise<Vec<Seat<E, O>>> for FreeSeats<'a, E, O> {
    ghost kept_by = { λ p seats. AreFree p.crew.now.lock.table seats.items };
}
