//! Where a thread stands, across an install, and what its next move uses.
use crate::checks::{Check, holds};
use crate::installs::install;
use source_programs::Name;
use source_runner::{SourceMove, SourceRun, Stepped};
use std::alloc::Global;
use std::test::Fail;

/// Before a move of `main`'s thread: the function that it is about to enter; the function, the version and the point of
/// its innermost frame; and whether it is in a transaction.
type Asked = (
    Option<&'static str>,
    Option<(&'static str, usize, u32)>,
    bool,
);

const OLD: &str = "int f(int n) { return n; } int main(void) { f(1); dsu_update(); return 0; }";

/// `OLD`, with a transaction in its first function.
const NEW: &str =
    "int f(int n) { dsu_tx { dsu_update(); } return n; } int main(void) { return 0; }";

/// Its moves are made from places as listed: up to the call, in the first version, and from the call on, where the newer
/// text is installed.
struct Places(&'static [Asked], &'static [Asked]);

/// The function is entered in the second version, and its caller stays in the first. The check-in after a call, an update
/// point, or the begin or end of a transaction has a point of its own, at which nothing stops.
static PLACES: Places = Places(
    &[
        (Some("main"), None, false),
        (None, Some(("main", 1, 0)), false),
    ],
    &[
        (Some("f"), Some(("main", 1, 1)), false),
        (None, Some(("f", 2, 0)), false),
        (None, Some(("f", 2, 1)), true),
        (None, Some(("f", 2, 3)), true),
        (None, Some(("f", 2, 5)), false),
        (None, Some(("main", 1, 1)), false),
        (None, Some(("main", 1, 3)), false),
    ],
);

/// Whether the thread of `main` is at a place.
fn is_at(run: &SourceRun, place: &Asked) -> bool {
    let (entering, frame, inside) = *place;
    let enters = match (run.entering(0), entering) {
        (Some(function), Some(name)) => run.word(function) == name,
        (None, None) => true,
        _ => false,
    };
    let stands = match (run.frame(0), frame) {
        (Some(at), Some((name, version, point))) => {
            run.word(at.function) == name && at.version == version && at.point == point
        }
        (None, None) => true,
        _ => false,
    };
    enters && stands && run.in_transaction(0) == inside
}

/// Whether its moves are made from places as listed.
fn moves_as_listed(run: &mut SourceRun, list: &[Asked]) -> Result<bool, Fail> {
    for place in list {
        if !is_at(run, place) || run.step(SourceMove::Move(0))? != Stepped::Done {
            return Ok(false);
        }
    }
    Ok(true)
}

impl Check for Places {
    fn holds(&self, alloc: Global, run: &mut SourceRun) -> Result<bool, Fail> {
        Ok(
            run.version() == 1
                && moves_as_listed(run, self.0)?
                && install(alloc, run, 0, 1)? == Stepped::Done
                && run.version() == 2
                && moves_as_listed(run, self.1)?
                && run.ending().is_some(),
        )
    }
}

#[test]
fn the_place_of_a_thread_is_reported(rt: HostRuntime) -> Result<(), Fail> {
    assert!(rt; holds(rt.alloc(), &[OLD, NEW], &PLACES)?);
    Ok(())
}

/// After an install no place is reported of slots without a thread, and the texts are those of the start.
struct Bare;

impl Check for Bare {
    fn holds(&self, alloc: Global, run: &mut SourceRun) -> Result<bool, Fail> {
        install(alloc, run, 0, 1)?;
        Ok(
            run.entering(1).is_none()
                && run.frame(1).is_none()
                && !run.in_transaction(1)
                && run.frame(9).is_none()
                && run.text(1).is_some()
                && run.text(2).is_none(),
        )
    }
}

#[test]
fn slots_without_a_thread_and_texts_are_reported(rt: HostRuntime) -> Result<(), Fail> {
    assert!(rt; holds(rt.alloc(), &[OLD, NEW], &Bare)?);
    Ok(())
}

/// A function that a thread starts with, a struct, and a global.
const USING: &str = r#"struct s { int v; };
int g;
int w(int x) { return x; }
int main(void) {
  thrd_t t;
  struct s *p;
  p = calloc(1, sizeof(struct s));
  p->v = g;
  thrd_create(&t, w, 0);
  thrd_join(t, NULL);
  return 0;
}
"#;

/// A name, and whether it is the tag of a struct.
type Used = (&'static str, bool);

/// The next moves of its `main` use these names, before which so many threads were started.
struct Uses(&'static [(Option<Used>, usize)]);

static USES: Uses = Uses(&[
    (Some(("main", false)), 1),
    (Some(("s", true)), 1),
    (Some(("g", false)), 1),
    (Some(("s", true)), 1),
    (Some(("w", false)), 1),
    (None, 2),
]);

/// Whether the next move of the thread in a slot uses that name.
fn is_used(run: &SourceRun, slot: u8, used: Option<Used>) -> bool {
    match (run.next_use(slot), used) {
        (Some(Name::Plain(word)), Some((name, false))) => run.word(word) == name,
        (Some(Name::Struct(tag)), Some((name, true))) => run.word(tag) == name,
        (None, None) => true,
        _ => false,
    }
}

impl Check for Uses {
    fn holds(&self, _alloc: Global, run: &mut SourceRun) -> Result<bool, Fail> {
        for (used, threads) in self.0 {
            if !is_used(run, 0, *used) || run.threads() != *threads {
                return Ok(false);
            }
            run.step(SourceMove::Move(0))?;
        }
        Ok(is_used(run, 1, Some(("w", false))) && is_used(run, 2, None) && is_used(run, 9, None))
    }
}

#[test]
fn what_the_next_move_uses_is_reported(rt: HostRuntime) -> Result<(), Fail> {
    assert!(rt; holds(rt.alloc(), &[USING], &USES)?);
    Ok(())
}
