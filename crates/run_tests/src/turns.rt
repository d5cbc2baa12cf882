//! The order in which sixteen threads act, some of which have ended and some of which wait: each event of a run is that of the
//! first slot in turn that can act, found by looking at each slot.
use crate::plain::{Plain, engine_of};
use dsu_runs::{Engine, Made, Stands, StopCause, solo};
use run_types::{Ending, Event};
use std::alloc::Global;

/// `main` holds the mutex while it starts fifteen threads. Each third of them ends at once, each third waits for the mutex, and
/// the others count.
const SIXTEEN: &str = "mtx_t a; int g; thrd_t t[15]; \
    int work(int n) { int i; \
      if (n % 3 == 0) return n; \
      if (n % 3 == 1) { mtx_lock(&a); g = g + n; mtx_unlock(&a); return n; } \
      for (i = 0; i < n; i++) g = g + 1; \
      return n; } \
    int main(void) { int i; mtx_lock(&a); \
      for (i = 0; i < 15; i++) thrd_create(&t[i], work, i); \
      for (i = 0; i < 9; i++) g = g + 1; \
      mtx_unlock(&a); \
      for (i = 0; i < 15; i++) thrd_join(t[i], NULL); \
      return 0; }";

/// The event of a slot whose thread is at a check-in, or goes and waits for nothing.
fn act_of(engine: &Plain, slot: u8) -> Option<Event> {
    match engine.stands(slot) {
        Stands::AtCheckIn => Some(Event::CheckIn(slot)),
        Stands::Going if engine.waits(slot).is_none() => Some(Event::Move(slot)),
        Stands::Going | Stands::NoThread => None,
    }
}

/// The event of the first slot in turn from one on.
fn first_act(engine: &Plain, first: u32) -> Option<Event> {
    for steps in 0..16u32 {
        let act = act_of(engine, ((first % 16 + steps) % 16) as u8);
        if act.is_some() {
            return act;
        }
    }
    None
}

/// Makes an event of a thread, and answers the slot after it; none where it isn't made.
fn make(engine: &mut Plain, event: Event) -> Option<u32> {
    let (made, slot) = match event {
        Event::Move(slot) => (engine.act(slot).ok()?, slot),
        Event::CheckIn(slot) => (engine.check_in(slot), slot),
        Event::Offer(_) | Event::Decide(_) | Event::Withdraw(_) => return None,
    };
    if made == Made::Done {
        Some(slot as u32 + 1)
    } else {
        None
    }
}

/// How many slots have no thread, and how many have one that waits.
fn idle_slots(engine: &Plain) -> (u32, u32) {
    let mut empty = 0u32;
    let mut waiting = 0u32;
    for slot in 0..16u8 {
        if engine.stands(slot) == Stands::NoThread {
            empty = empty.saturating_add(1);
        }
        if engine.waits(slot).is_some() {
            waiting = waiting.saturating_add(1);
        }
    }
    (empty, waiting)
}

/// Makes the events, each of which must be that of the first slot in turn. It answers before how many of them at least three
/// threads waited and as many slots were empty.
fn in_turn(engine: &mut Plain, events: &[Event]) -> Option<u32> {
    let mut first = 0u32;
    let mut mixed = 0u32;
    for event in events {
        if first_act(engine, first) != Some(*event) {
            return None;
        }
        let (empty, waiting) = idle_slots(engine);
        if empty >= 3 && waiting >= 3 {
            mixed = mixed.saturating_add(1);
        }
        first = make(engine, *event)?;
    }
    Some(mixed)
}

/// Whether a solo run of the text makes its events in turn, its last thread among them, with waiting threads and empty slots
/// between those that act.
fn acts_in_turn(alloc: Global) -> Option<bool> {
    let ran = solo(alloc, engine_of(alloc, SIXTEEN, &[], &[])?, 2000);
    let mut again = engine_of(alloc, SIXTEEN, &[], &[])?;
    let mixed = in_turn(&mut again, ran.history.as_slice())?;
    let has_ended = ran.cause == StopCause::Ended(Ending::Finished(0));
    let has_all = ran.history.as_slice().contains(&Event::Move(15));
    Some(has_ended && has_all && mixed > 20)
}

#[test]
fn sixteen_threads_act_in_turn(rt: HostRuntime) {
    assert!(rt; acts_in_turn(rt.alloc()) == Some(true));
}
