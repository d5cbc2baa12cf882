//! Offers of newer texts while the first one runs. Each run is made by both engines, and its journal replayed by both.
use crate::compiled::compiled_of;
use crate::plain::engine_of;
use crate::texts::Offer;
use con_freeness::Effect;
use dsu_io::MemorySink;
use dsu_runs::{Ran, replay, solo};
use name_sets::Names;
use plain_engine::PlainEngine;
use run_machine::Machine;
use run_types::Event;
use source_model::{NotPatch, OfferAnswer};
use std::alloc::Global;

/// A transaction in which `g` is used by two calls.
const B: &str = "int h(void) { return 0; } int g(void) { return 1; } int f(void) { return g(); } \
    int main(void) { dsu_tx { printf(\"start\\n\"); h(); printf(\"%d\\n\", g()); printf(\"%d\\n\", f()); } return 0; }";

/// The same with another `g`.
const B2: &str = "int h(void) { return 0; } int g(void) { return 2; } int f(void) { return g(); } \
    int main(void) { dsu_tx { printf(\"start\\n\"); h(); printf(\"%d\\n\", g()); printf(\"%d\\n\", f()); } return 0; }";

/// `g` is a global here.
const KIND: &str = "int g; int main(void) { return 0; }";

/// A transaction that uses `g`, then `h`, then `k`.
const C: &str =
    "int g(void) { return 1; } int h(void) { return 3; } int p(void) { return 0; } int k(void) { return 5; } \
    int main(void) { dsu_tx { printf(\"%d\\n\", g()); printf(\"%d\\n\", h()); p(); printf(\"%d\\n\", k()); } return 0; }";

/// The same with another `g`.
const C2: &str =
    "int g(void) { return 2; } int h(void) { return 3; } int p(void) { return 0; } int k(void) { return 5; } \
    int main(void) { dsu_tx { printf(\"%d\\n\", g()); printf(\"%d\\n\", h()); p(); printf(\"%d\\n\", k()); } return 0; }";

/// The same with another `k` too.
const C3: &str =
    "int g(void) { return 2; } int h(void) { return 3; } int p(void) { return 0; } int k(void) { return 6; } \
    int main(void) { dsu_tx { printf(\"%d\\n\", g()); printf(\"%d\\n\", h()); p(); printf(\"%d\\n\", k()); } return 0; }";

/// An object of a struct of two fields.
const E1: &str = "struct conn { int in; int out; }; struct conn *c; \
    int show(void) { printf(\"%d\\n\", c->in); return 0; } \
    int main(void) { c = calloc(1, sizeof(struct conn)); c->in = 3; c->out = 4; \
    dsu_update(); printf(\"a\\n\"); dsu_update(); printf(\"b\\n\"); dsu_update(); show(); return 0; }";

/// The struct has a third field.
const E2: &str = "struct conn { int in; int out; int total; }; struct conn *c; \
    int show(void) { printf(\"%d\\n\", c->total); return 0; } \
    int main(void) { c = calloc(1, sizeof(struct conn)); c->in = 3; c->out = 4; \
    dsu_update(); printf(\"a\\n\"); dsu_update(); printf(\"b\\n\"); dsu_update(); show(); return 0; } \
    dsu_transform struct conn { total = old.in + old.out; }";

/// And a fourth one.
const E3: &str = "struct conn { int in; int out; int total; int twice; }; struct conn *c; \
    int show(void) { printf(\"%d %d\\n\", c->total, c->twice); return 0; } \
    int main(void) { c = calloc(1, sizeof(struct conn)); c->in = 3; c->out = 4; \
    dsu_update(); printf(\"a\\n\"); dsu_update(); printf(\"b\\n\"); dsu_update(); show(); return 0; } \
    dsu_transform struct conn { twice = old.total * 2; }";

/// A global, an array and a mutex that are used before the update point and after it.
const D: &str = "mtx_t m; int g; int seen[3]; int f(int n) { return n + 1; } \
    int use(void) { mtx_lock(&m); g = f(g); seen[1] = g; mtx_unlock(&m); return 0; } \
    int show(void) { printf(\"%d %d\\n\", g, seen[1]); return 0; } \
    int main(void) { use(); printf(\"a\\n\"); dsu_update(); use(); show(); return 0; }";

/// `g` is a long that its transformer makes, `f` takes one and calls a new function, and there is another mutex.
const D2: &str = "mtx_t n; int seen[3]; long g; dsu_transform g = old * 1000000000; \
    int twice(int n) { return n * 2; } long f(long n) { return n + twice(5); } \
    int use(void) { mtx_lock(&n); g = f(g); mtx_unlock(&n); return 0; } \
    int show(void) { printf(\"%ld %d\\n\", g, seen[1]); return 0; } \
    int main(void) { use(); printf(\"a\\n\"); dsu_update(); use(); show(); return 0; }";

/// An answer, for comparison.
#[derive(Clone, Copy, PartialEq)]
enum Answer {
    Installed(u32),
    /// `g` was used and may be used still.
    BothG,
    /// A pinned transaction may use `k`.
    PinnedK,
    Kind,
    Other,
}

fn refused_by(names: &Names, effect: Effect) -> Answer {
    let g = names.find("g");
    match effect {
        Effect::Both(prior, future) if Some(prior) == g && Some(future) == g => Answer::BothG,
        Effect::Pinned(future) if Some(future) == names.find("k") => Answer::PinnedK,
        _ => Answer::Other,
    }
}

fn seen(names: &Names, answer: &OfferAnswer) -> Answer {
    match answer {
        OfferAnswer::Installed(version) => Answer::Installed(*version),
        OfferAnswer::Refused(refusal) => refused_by(names, refusal.effect),
        OfferAnswer::NotPatch(NotPatch::Kind(_)) => Answer::Kind,
        _ => Answer::Other,
    }
}

/// Whether the answers are these.
fn are_seen(names: &Names, answers: &[OfferAnswer], wanted: &[Answer]) -> bool {
    for (answer, want) in answers.iter().zip(wanted) {
        if seen(names, answer) != *want {
            return false;
        }
    }
    answers.len() == wanted.len()
}

/// A text with offers, what its solo run prints, and the answers.
struct Case {
    first: &'static str,
    offers: &'static [Offer],
    out: &'static str,
    answers: &'static [Answer],
}

/// The events of a run that has printed this and answered so.
fn events_of<M: Machine>(ran: Ran<PlainEngine<M, MemorySink>>, case: &Case) -> Option<Vec<Event>> {
    let (sink, answers, names) = ran.engine.into_parts();
    let is_right = sink.bytes() == case.out.as_bytes() && are_seen(&names, &answers, case.answers);
    if is_right { Some(ran.history) } else { None }
}

/// The lines of a journal with these events.
fn journal_of(alloc: Global, events: &[Event]) -> Option<Vec<(u32, Event)>> {
    let mut lines = Vec::new(alloc);
    for event in events {
        lines.push((1, *event)).ok()?;
    }
    Some(lines)
}

/// Whether an engine's replay makes the events of a journal again, prints this and answers so.
fn replays<M: Machine>(
    alloc: Global,
    engine: PlainEngine<M, MemorySink>,
    events: &[Event],
    case: &Case,
) -> Option<bool> {
    let lines = journal_of(alloc, events)?;
    let again = events_of(replay(alloc, engine, &lines), case)?;
    Some(again.as_slice() == events)
}

/// Whether a solo run prints this and answers so by both engines, with the same events, which both make again.
fn runs(alloc: Global, case: &Case) -> Option<bool> {
    let plain = engine_of(alloc, case.first, case.offers, &[])?;
    let events = events_of(solo(alloc, plain, 1000), case)?;
    let compiled = compiled_of(alloc, case.first, case.offers, &[])?;
    let others = events_of(solo(alloc, compiled, 1000), case)?;
    let plain = engine_of(alloc, case.first, case.offers, &[])?;
    let by_plain = replays(alloc, plain, &events, case)?;
    let compiled = compiled_of(alloc, case.first, case.offers, &[])?;
    let by_compiled = replays(alloc, compiled, &events, case)?;
    Some(events.as_slice() == others.as_slice() && by_plain && by_compiled)
}

static INSTALLED: Case = Case {
    first: B,
    offers: &[Offer { text: B2, lines: 1 }],
    out: "start\n2\n2\n",
    answers: &[Answer::Installed(2)],
};

#[test]
fn an_offer_is_installed_where_nothing_changed_was_used(rt: HostRuntime) {
    assert!(rt; runs(rt.alloc(), &INSTALLED) == Some(true));
}

static REFUSED: Case = Case {
    first: B,
    offers: &[Offer { text: B2, lines: 2 }],
    out: "start\n1\n1\n",
    answers: &[Answer::BothG],
};

#[test]
fn an_offer_is_refused_amid_uses_of_what_changes(rt: HostRuntime) {
    assert!(rt; runs(rt.alloc(), &REFUSED) == Some(true));
}

static PINNED: Case = Case {
    first: C,
    offers: &[Offer { text: C2, lines: 1 }, Offer { text: C3, lines: 2 }],
    out: "1\n3\n5\n",
    answers: &[Answer::Installed(2), Answer::PinnedK],
};

#[test]
fn a_pinned_transaction_keeps_its_version(rt: HostRuntime) {
    assert!(rt; runs(rt.alloc(), &PINNED) == Some(true));
}

static NO_PATCH: Case = Case {
    first: B,
    offers: &[
        Offer {
            text: KIND,
            lines: 1,
        },
        Offer { text: B2, lines: 1 },
    ],
    out: "start\n2\n2\n",
    answers: &[Answer::Kind, Answer::Installed(2)],
};

#[test]
fn a_name_of_another_kind_is_no_patch(rt: HostRuntime) {
    assert!(rt; runs(rt.alloc(), &NO_PATCH) == Some(true));
}

static CONVERTED: Case = Case {
    first: E1,
    offers: &[Offer { text: E2, lines: 1 }, Offer { text: E3, lines: 2 }],
    out: "a\nb\n7 14\n",
    answers: &[Answer::Installed(2), Answer::Installed(3)],
};

#[test]
fn objects_come_to_each_new_layout(rt: HostRuntime) {
    assert!(rt; runs(rt.alloc(), &CONVERTED) == Some(true));
}

static OTHER_TYPES: Case = Case {
    first: D,
    offers: &[Offer { text: D2, lines: 1 }],
    out: "a\n1000000010 1\n",
    answers: &[Answer::Installed(2)],
};

#[test]
fn globals_come_to_their_new_types(rt: HostRuntime) {
    assert!(rt; runs(rt.alloc(), &OTHER_TYPES) == Some(true));
}
