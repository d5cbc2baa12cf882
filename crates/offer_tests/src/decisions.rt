//! Offers to the small program of the documents on admission.
use crate::texts::{first_of, read};
use c_types::Typed;
use con_freeness::{Effect, Refusal};
use dsu_io::Boxed;
use name_sets::{NameId, Names};
use offer_decision::{Decision, Offered, Seat, decide_prepared, prepare};
use patch_build::Versions;
use rows_in_force::Origin;
use source_model::NotPatch;
use std::alloc::Global;
use std::test::Fail;

/// The first version: calls in a transaction.
const FIRST: &str = "int h(void) { return 0; }
int g(void) { return 1; }
int f(void) { return g(); }
int main(void) {
  dsu_tx {
    printf(\"start\\n\");
    h();
    printf(\"%d\\n\", g());
    printf(\"%d\\n\", f());
  }
  return 0;
}
";

/// The body of `g` is another.
const OTHER_G: &str = "int h(void) { return 0; }
int g(void) { return 2; }
int f(void) { return g(); }
int main(void) {
  dsu_tx {
    printf(\"start\\n\");
    h();
    printf(\"%d\\n\", g());
    printf(\"%d\\n\", f());
  }
  return 0;
}
";

/// `g` becomes a variable.
const OTHER_KIND: &str = "int g;
int main(void) { return g; }
";

/// The points of `main`: its begin, its call of `g` and its call of `f`.
const BEGIN: u32 = 1;

const CALL_OF_G: u32 = 6;

const CALL_OF_F: u32 = 9;

/// What is decided.
#[derive(Clone, Copy, PartialEq, Eq)]
enum Answer {
    /// Whether the threads of the first two slots are pinned after the install.
    Admitted(bool, bool),
    /// The slot; the transaction has used `g` and may use it still.
    BothG(u8),
    /// The slot; a pinned transaction may use `g` still.
    PinnedG(u8),
    Kind,
    Other,
}

/// An offer: the point of `main` at which the thread last stopped, whether it is pinned, the text, and what is decided.
type Case = (u32, bool, &'static str, Answer);

static CASES: [Case; 6] = [
    (BEGIN, false, OTHER_G, Answer::Admitted(false, false)),
    (CALL_OF_G, false, OTHER_G, Answer::BothG(0)),
    (CALL_OF_F, false, OTHER_G, Answer::Admitted(true, false)),
    (BEGIN, true, OTHER_G, Answer::PinnedG(0)),
    (CALL_OF_G, false, FIRST, Answer::Admitted(false, false)),
    (CALL_OF_G, false, OTHER_KIND, Answer::Kind),
];

fn seat(origin: Option<Origin>, pinned: bool, in_transaction: bool) -> Seat {
    Seat {
        origin,
        pinned,
        in_transaction,
    }
}

/// The slots: that of the thread, one whose thread stands at the same point and is in no transaction, and empty ones.
fn seats(main: NameId, point: u32, pinned: bool) -> [Seat; 16] {
    let mut seats = [seat(None, false, false); 16];
    seats[0] = seat(Some(Origin::Passed(main, 1, point)), pinned, true);
    seats[1] = seat(Some(Origin::Passed(main, 1, point)), false, false);
    seats
}

fn refused_by(names: &Names, refusal: &Refusal) -> Answer {
    let g = names.find("g");
    match refusal.effect {
        Effect::Both(prior, future) => {
            if Some(prior) == g && Some(future) == g {
                Answer::BothG(refusal.slot)
            } else {
                Answer::Other
            }
        }
        Effect::Pinned(future) => {
            if Some(future) == g {
                Answer::PinnedG(refusal.slot)
            } else {
                Answer::Other
            }
        }
        Effect::Concrete(_) => Answer::Other,
    }
}

fn answer_of(names: &Names, decision: &Decision) -> Answer {
    match decision {
        Decision::Admitted(_, pins) => Answer::Admitted(pins[0], pins[1]),
        Decision::Refused(refusal) => refused_by(names, refusal),
        Decision::NotPatch(NotPatch::Kind(_)) => Answer::Kind,
        Decision::NotPatch(_) => Answer::Other,
    }
}

/// What is decided on an offer of a text after some versions.
fn answer_to<'a>(
    alloc: Global,
    versions: Versions<'a>,
    text: &'a Typed,
    case: &Case,
) -> Result<Answer, Fail> {
    let (point, pinned, _, _) = *case;
    let main = versions.names.find("main").ok_or("an id")?;
    let offered = Offered {
        versions,
        text,
        rows: None,
    };
    let Ok(prepared) = prepare(alloc, offered) else {
        return Err(Fail::new("nothing is prepared"));
    };
    let seats = seats(main, point, pinned);
    let decision = decide_prepared(prepared, versions.names, versions.store, &seats);
    let answer = answer_of(versions.names, &decision);
    drop(decision);
    Ok(answer)
}

/// Whether each case has its answer.
fn are_answered(alloc: Global, versions: Versions<'_>, cases: &[Case]) -> Result<bool, Fail> {
    for case in cases {
        let new = read(alloc, case.2)?;
        if answer_to(alloc, versions, new.get(), case)? != case.3 {
            return Ok(false);
        }
    }
    Ok(true)
}

#[test]
fn by_the_place_in_the_transaction(rt: HostRuntime) -> Result<(), Fail> {
    let first = read(rt.alloc(), FIRST)?;
    let installed = Boxed::of(rt.alloc(), first_of(rt.alloc(), first.get())?)?;
    let versions = installed.get().versions(first.get());
    assert!(rt; are_answered(rt.alloc(), versions, &CASES)?);
    Ok(())
}
