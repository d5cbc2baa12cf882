//! The schedules, over the smallest engine.
use crate::runs::{End, has_ended};
use crate::tiny::Tiny;
use dsu_runs::{StopCause, replay, solo};
use run_types::{Ending, Event};
use std::alloc::Global;

/// Whether a solo run of so many moves ends so.
fn ends(alloc: Global, moves: u32, end: &End) -> bool {
    let ran = solo(alloc, Tiny::new(alloc), moves);
    has_ended(&ran, end)
}

/// Whether the replay of a journal ends so.
fn replays(alloc: Global, journal: &[(u32, Event)], end: &End) -> bool {
    let ran = replay(alloc, Tiny::new(alloc), journal);
    has_ended(&ran, end)
}

/// Nothing can act after the move and the check-in to which it leads.
static STUCK: End = End {
    cause: StopCause::Ended(Ending::Deadlock),
    events: &[Event::Move(0), Event::CheckIn(0)],
};

#[test]
fn solo_ends_where_nothing_can_act(rt: HostRuntime) {
    assert!(rt; ends(rt.alloc(), 5, &STUCK));
}

static CUT: End = End {
    cause: StopCause::Ended(Ending::Cut),
    events: &[Event::Move(0)],
};

#[test]
fn solo_is_cut_where_the_moves_are_made(rt: HostRuntime) {
    assert!(rt; ends(rt.alloc(), 1, &CUT));
}

static WHOLE_JOURNAL: [(u32, Event); 2] = [(2, Event::Move(0)), (3, Event::CheckIn(0))];

#[test]
fn replay_makes_the_events_of_its_journal(rt: HostRuntime) {
    assert!(rt; replays(rt.alloc(), &WHOLE_JOURNAL, &STUCK));
}

static OTHER_JOURNAL: [(u32, Event); 2] = [(2, Event::Move(0)), (7, Event::Move(0))];

static CANNOT_HAPPEN: End = End {
    cause: StopCause::CannotHappen(7),
    events: &[Event::Move(0)],
};

#[test]
fn replay_stops_at_an_event_that_cannot_happen(rt: HostRuntime) {
    assert!(rt; replays(rt.alloc(), &OTHER_JOURNAL, &CANNOT_HAPPEN));
}
