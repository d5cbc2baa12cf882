//! What small texts print, how they end and which events are made, what the threads of a deadlock wait for, and a sink that
//! fails. Each run is made by both engines.
use crate::compiled::compiled_of;
use crate::plain::engine_of;
use crate::runs::{End, has_ended};
use dsu_io::MemorySink;
use dsu_runs::{Engine, Ran, StopCause, Waiting, replay, solo};
use plain_engine::PlainEngine;
use run_machine::Machine;
use run_types::{Ending, Event, TrapKind};
use std::alloc::Global;

const SUM: &str = "int main(void) { printf(\"%d\\n\", 2+3*4); return 0; }";

/// Two prints, of which the second traps.
const OVERFLOW: &str =
    "int main(void) { printf(\"a\\n\"); printf(\"%d\\n\", 2147483647 + 1); return 0; }";

/// `main` holds `a` and then wants `b`; the thread that it starts holds `b` and then wants `a`.
const DEADLOCK: &str = "mtx_t a; mtx_t b; \
    int other(int n) { mtx_lock(&b); mtx_lock(&a); return n; } \
    int main(void) { thrd_t t; thrd_create(&t, other, 0); mtx_lock(&a); printf(\"a\"); mtx_lock(&b); return 0; }";

/// How a run ends, and what it has printed.
struct Printed {
    end: End,
    out: &'static str,
}

/// Whether a run ended so.
fn has_printed<M: Machine>(ran: Ran<PlainEngine<M, MemorySink>>, want: &Printed) -> bool {
    let has_ended = has_ended(&ran, &want.end);
    let (sink, _answers, _names) = ran.engine.into_parts();
    has_ended && sink.bytes() == want.out.as_bytes()
}

/// Whether the solo run of an engine, of at most ten moves, ends so.
fn ends_over<M: Machine>(
    alloc: Global,
    engine: PlainEngine<M, MemorySink>,
    want: &Printed,
) -> bool {
    has_printed(solo(alloc, engine, 10), want)
}

/// Whether a solo run ends so, over a sink whose calls with these numbers fail.
fn ends(alloc: Global, text: &str, failing: &[u64], want: &Printed) -> Option<bool> {
    let plain = ends_over(alloc, engine_of(alloc, text, &[], failing)?, want);
    let compiled = ends_over(alloc, compiled_of(alloc, text, &[], failing)?, want);
    Some(plain && compiled)
}

/// `main` is entered, passes the check-in, prints and returns.
static FINISHED: Printed = Printed {
    end: End {
        cause: StopCause::Ended(Ending::Finished(0)),
        events: &[
            Event::Move(0),
            Event::CheckIn(0),
            Event::Move(0),
            Event::Move(0),
        ],
    },
    out: "14\n",
};

#[test]
fn solo_prints_and_finishes(rt: HostRuntime) {
    assert!(rt; ends(rt.alloc(), SUM, &[], &FINISHED) == Some(true));
}

static TRAPPED: Printed = Printed {
    end: End {
        cause: StopCause::Ended(Ending::Trap(TrapKind::Overflow, 0)),
        events: &[
            Event::Move(0),
            Event::CheckIn(0),
            Event::Move(0),
            Event::Move(0),
        ],
    },
    out: "a\n",
};

#[test]
fn solo_ends_with_a_trap(rt: HostRuntime) {
    assert!(rt; ends(rt.alloc(), OVERFLOW, &[], &TRAPPED) == Some(true));
}

static SINK_FAILED: Printed = Printed {
    end: End {
        cause: StopCause::SinkFailed,
        events: &[Event::Move(0), Event::CheckIn(0), Event::Move(0)],
    },
    out: "",
};

#[test]
fn solo_stops_where_its_sink_fails(rt: HostRuntime) {
    assert!(rt; ends(rt.alloc(), SUM, &[1], &SINK_FAILED) == Some(true));
}

static JOURNAL: [(u32, Event); 4] = [
    (1, Event::Move(0)),
    (2, Event::CheckIn(0)),
    (3, Event::Move(0)),
    (4, Event::CheckIn(0)),
];

static CANNOT_HAPPEN: Printed = Printed {
    end: End {
        cause: StopCause::CannotHappen(4),
        events: &[Event::Move(0), Event::CheckIn(0), Event::Move(0)],
    },
    out: "14\n",
};

/// Whether an engine's replay of a journal ends so.
fn replays_over<M: Machine>(
    alloc: Global,
    engine: PlainEngine<M, MemorySink>,
    journal: &[(u32, Event)],
    want: &Printed,
) -> bool {
    has_printed(replay(alloc, engine, journal), want)
}

/// Whether the replay of a journal ends so.
fn replays(alloc: Global, text: &str, journal: &[(u32, Event)], want: &Printed) -> Option<bool> {
    let plain = replays_over(alloc, engine_of(alloc, text, &[], &[])?, journal, want);
    let compiled = replays_over(alloc, compiled_of(alloc, text, &[], &[])?, journal, want);
    Some(plain && compiled)
}

#[test]
fn replay_makes_a_journal_up_to_what_cannot_happen(rt: HostRuntime) {
    assert!(rt; replays(rt.alloc(), SUM, &JOURNAL, &CANNOT_HAPPEN) == Some(true));
}

static DEADLOCKED: Printed = Printed {
    end: End {
        cause: StopCause::Ended(Ending::Deadlock),
        events: &[
            Event::Move(0),
            Event::CheckIn(0),
            Event::Move(0),
            Event::Move(1),
            Event::Move(0),
            Event::CheckIn(1),
            Event::Move(0),
            Event::Move(1),
        ],
    },
    out: "a",
};

/// Whether `main` waits for `b` and the other thread for `a`.
fn wait_for_each_other<E: Engine>(engine: &E) -> bool {
    engine.waits(0) == Some(Waiting::Mutex("b", 1))
        && engine.waits(1) == Some(Waiting::Mutex("a", 0))
}

/// Whether the solo run of an engine, of at most 20 moves, ends so, with two threads that wait so.
fn deadlocks_over<M: Machine>(
    alloc: Global,
    engine: PlainEngine<M, MemorySink>,
    want: &Printed,
) -> bool {
    let ran = solo(alloc, engine, 20);
    let are_waiting = wait_for_each_other(&ran.engine);
    has_printed(ran, want) && are_waiting
}

/// Whether a solo run ends so.
fn deadlocks(alloc: Global, text: &str, want: &Printed) -> Option<bool> {
    let plain = deadlocks_over(alloc, engine_of(alloc, text, &[], &[])?, want);
    let compiled = deadlocks_over(alloc, compiled_of(alloc, text, &[], &[])?, want);
    Some(plain && compiled)
}

#[test]
fn solo_ends_where_threads_wait_for_each_other(rt: HostRuntime) {
    assert!(rt; deadlocks(rt.alloc(), DEADLOCK, &DEADLOCKED) == Some(true));
}
