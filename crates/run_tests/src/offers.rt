//! The order of events, over a script with offers.
use crate::runs::{End, has_ended};
use crate::scripted::{Decision, Scripted};
use dsu_runs::{Book, Engine, Ran, StopCause, replay, solo};
use run_types::{Ending, Event};
use std::alloc::Global;

/// A script: after how many lines each of its offers is due, how many moves it can make, and what becomes of a decision.
struct Script {
    lines: &'static [u32],
    moves: u8,
    decision: Decision,
}

/// How a run ends, and the answers to its offers as they are printed.
struct Answered {
    end: End,
    answers: &'static str,
}

/// The engine of a script.
fn engine_of(alloc: Global, script: &Script) -> Option<Scripted> {
    let lines = script.lines.to_vec(alloc).ok()?;
    if lines.len() > 63 {
        return None;
    }
    let book = Book::new(alloc, lines).ok()?;
    Some(Scripted::new(alloc, book, script.moves, script.decision))
}

/// Whether a run ended so.
fn is_answered(alloc: Global, ran: &Ran<Scripted>, want: &Answered) -> Option<bool> {
    let answers = ran.engine.answers();
    let shown = format!(in alloc; "{answers:?}").ok()?;
    Some(has_ended(ran, &want.end) && shown.as_str() == want.answers)
}

/// Whether a solo run of so many moves ends so.
fn ends(alloc: Global, script: &Script, moves: u32, want: &Answered) -> Option<bool> {
    let ran = solo(alloc, engine_of(alloc, script)?, moves);
    let is_answered = is_answered(alloc, &ran, want);
    drop(ran);
    is_answered
}

/// Whether the replay of a journal ends so.
fn replays(
    alloc: Global,
    script: &Script,
    journal: &[(u32, Event)],
    want: &Answered,
) -> Option<bool> {
    let ran = replay(alloc, engine_of(alloc, script)?, journal);
    let is_answered = is_answered(alloc, &ran, want);
    drop(ran);
    is_answered
}

/// A script that can make three moves, with two offers, which are installed: the first is due after one line, the second after
/// two.
static INSTALLS: Script = Script {
    lines: &[1, 2],
    moves: 3,
    decision: Decision::Installs,
};

static BOTH_INSTALLED: Answered = Answered {
    end: End {
        cause: StopCause::Ended(Ending::Deadlock),
        events: &[
            Event::Move(0),
            Event::Offer(1),
            Event::Decide(1),
            Event::Move(0),
            Event::Offer(2),
            Event::Decide(2),
            Event::Move(0),
        ],
    },
    answers: "[Installed(2), Installed(2)]",
};

#[test]
fn offers_are_decided_when_they_are_due(rt: HostRuntime) {
    assert!(rt; ends(rt.alloc(), &INSTALLS, 10, &BOTH_INSTALLED) == Some(true));
}

/// The same without memory for a decision.
static WANTS_MEMORY: Script = Script {
    lines: &[1, 2],
    moves: 3,
    decision: Decision::WantsMemory,
};

/// The run is cut before its first offer is due.
static NOT_OFFERED: Answered = Answered {
    end: End {
        cause: StopCause::Ended(Ending::Cut),
        events: &[Event::Move(0)],
    },
    answers: "[NotOffered, NotOffered]",
};

/// The run is cut after its first offer was withdrawn.
static WITHDRAWN: Answered = Answered {
    end: End {
        cause: StopCause::Ended(Ending::Cut),
        events: &[
            Event::Move(0),
            Event::Offer(1),
            Event::Withdraw(1),
            Event::Move(0),
        ],
    },
    answers: "[Withdrawn, NotOffered]",
};

#[test]
fn an_offer_without_memory_is_withdrawn(rt: HostRuntime) {
    assert!(rt; ends(rt.alloc(), &WANTS_MEMORY, 1, &NOT_OFFERED) == Some(true));
    assert!(rt; ends(rt.alloc(), &WANTS_MEMORY, 2, &WITHDRAWN) == Some(true));
}

/// The same with a definition that is misused.
static MISUSED: Script = Script {
    lines: &[1, 2],
    moves: 3,
    decision: Decision::IsMisused,
};

#[test]
fn an_offer_after_a_misuse_is_withdrawn(rt: HostRuntime) {
    assert!(rt; ends(rt.alloc(), &MISUSED, 2, &WITHDRAWN) == Some(true));
}

/// The same with offers of texts that use a name that they don't define.
static UNDEFINED: Script = Script {
    lines: &[1, 2],
    moves: 3,
    decision: Decision::UsesUndefined,
};

#[test]
fn an_offer_of_an_undefined_name_is_withdrawn(rt: HostRuntime) {
    assert!(rt; ends(rt.alloc(), &UNDEFINED, 2, &WITHDRAWN) == Some(true));
}

/// The same with decisions that can't be made.
static CANNOT_HAPPEN: Script = Script {
    lines: &[1, 2],
    moves: 3,
    decision: Decision::CannotHappen,
};

#[test]
fn an_offer_that_cannot_be_decided_is_withdrawn(rt: HostRuntime) {
    assert!(rt; ends(rt.alloc(), &CANNOT_HAPPEN, 2, &WITHDRAWN) == Some(true));
}

/// A script with one move and three offers.
static ONE_MOVE: Script = Script {
    lines: &[0, 1, 2],
    moves: 1,
    decision: Decision::Installs,
};

static TWO_OF_THREE: Answered = Answered {
    end: End {
        cause: StopCause::Ended(Ending::Deadlock),
        events: &[
            Event::Offer(1),
            Event::Decide(1),
            Event::Move(0),
            Event::Offer(2),
            Event::Decide(2),
        ],
    },
    answers: "[Installed(2), Installed(2), NotOffered]",
};

#[test]
fn a_stuck_run_answers_its_offers_without_a_move_left(rt: HostRuntime) {
    assert!(rt; ends(rt.alloc(), &ONE_MOVE, 1, &TWO_OF_THREE) == Some(true));
}

static WITHDRAWING: [(u32, Event); 4] = [
    (2, Event::Move(0)),
    (3, Event::Move(0)),
    (4, Event::Offer(2)),
    (5, Event::Withdraw(2)),
];

static SECOND_WITHDRAWN: Answered = Answered {
    end: End {
        cause: StopCause::Ended(Ending::Cut),
        events: &[
            Event::Move(0),
            Event::Move(0),
            Event::Offer(2),
            Event::Withdraw(2),
        ],
    },
    answers: "[NotOffered, Withdrawn]",
};

#[test]
fn replay_makes_the_offers_of_its_journal(rt: HostRuntime) {
    assert!(rt; replays(rt.alloc(), &INSTALLS, &WITHDRAWING, &SECOND_WITHDRAWN) == Some(true));
}

static DECIDING: [(u32, Event); 3] = [
    (2, Event::Move(0)),
    (3, Event::Offer(1)),
    (4, Event::Decide(1)),
];

static OUT_OF_MEMORY: Answered = Answered {
    end: End {
        cause: StopCause::Memory,
        events: &[Event::Move(0), Event::Offer(1)],
    },
    answers: "[NotOffered, NotOffered]",
};

#[test]
fn replay_stops_without_memory_for_a_decision(rt: HostRuntime) {
    assert!(rt; replays(rt.alloc(), &WANTS_MEMORY, &DECIDING, &OUT_OF_MEMORY) == Some(true));
}

static AFTER_A_MISUSE: Answered = Answered {
    end: End {
        cause: StopCause::Misused(4),
        events: &[Event::Move(0), Event::Offer(1)],
    },
    answers: "[NotOffered, NotOffered]",
};

#[test]
fn replay_stops_at_the_decision_after_a_misuse(rt: HostRuntime) {
    assert!(rt; replays(rt.alloc(), &MISUSED, &DECIDING, &AFTER_A_MISUSE) == Some(true));
}

static AT_AN_UNDEFINED_NAME: Answered = Answered {
    end: End {
        cause: StopCause::UndefinedName(4),
        events: &[Event::Move(0), Event::Offer(1)],
    },
    answers: "[NotOffered, NotOffered]",
};

#[test]
fn replay_stops_at_the_decision_on_an_undefined_name(rt: HostRuntime) {
    assert!(rt; replays(rt.alloc(), &UNDEFINED, &DECIDING, &AT_AN_UNDEFINED_NAME) == Some(true));
}
