//! What is asked of a run between its moves.
use crate::checks::{Case, Check, first_wrong, holds};
use run_types::TrapKind;
use source_runner::{SourceMove, SourceRun, SourceState, SourceWait, Stepped};
use std::alloc::Global;
use std::test::Fail;

/// A transaction with an update point.
const UPDATE: &str = "int main(void) { dsu_tx { dsu_update(); } return 0; }";

/// A move of a slot's thread and what it comes to, and how the run is after it.
type Asked = (u8, Stepped, SourceState);

/// It comes to what a script says, move by move.
struct Script(&'static [Asked]);

static SCRIPTS: [Case<Script>; 3] = [
    // `main` is entered and returns; there is no other thread, and no slot 9.
    (
        &["int main(void) { return 7; }"],
        Script(&[
            (1, Stepped::CannotMove, SourceState::Going),
            (2, Stepped::CannotMove, SourceState::Going),
            (9, Stepped::CannotMove, SourceState::Going),
            (0, Stepped::Done, SourceState::Going),
            (0, Stepped::Done, SourceState::Finished(7)),
            (0, Stepped::CannotMove, SourceState::Finished(7)),
        ]),
    ),
    // The begin and the end of a transaction, and an update point, are moves.
    (
        &[UPDATE],
        Script(&[
            (0, Stepped::Done, SourceState::Going),
            (0, Stepped::Done, SourceState::Going),
            (0, Stepped::Done, SourceState::Going),
            (0, Stepped::Done, SourceState::Going),
            (0, Stepped::Done, SourceState::Finished(0)),
        ]),
    ),
    // A trap ends the run.
    (
        &["int main(void) { return 1 / 0; }"],
        Script(&[
            (0, Stepped::Done, SourceState::Going),
            (0, Stepped::Done, SourceState::Trap(TrapKind::Divide, 0)),
            (
                0,
                Stepped::CannotMove,
                SourceState::Trap(TrapKind::Divide, 0),
            ),
        ]),
    ),
];

impl Check for Script {
    fn holds(&self, _alloc: Global, run: &mut SourceRun) -> Result<bool, Fail> {
        if run.state() != SourceState::Going {
            return Ok(false);
        }
        for (slot, stepped, state) in self.0 {
            if run.can_move(*slot) != (*stepped == Stepped::Done)
                || run.step(SourceMove::Move(*slot))? != *stepped
                || run.state() != *state
            {
                return Ok(false);
            }
        }
        Ok(run.output().is_empty() && !run.misused())
    }
}

#[test]
fn moves_are_made_where_they_can_be(rt: HostRuntime) -> Result<(), Fail> {
    let wrong = first_wrong(rt.alloc(), &SCRIPTS)?;
    assert_eq!(rt; wrong, None);
    Ok(())
}

/// Its `main` lives alone, and before each of its moves that move leads to a check-in or doesn't, as listed.
struct Leads(&'static [bool]);

static LEADS: Leads = Leads(&[true, true, true, true, false]);

impl Check for Leads {
    fn holds(&self, _alloc: Global, run: &mut SourceRun) -> Result<bool, Fail> {
        if !run.is_live(0) || run.is_live(1) {
            return Ok(false);
        }
        for leads in self.0 {
            if run.leads(0) != *leads {
                return Ok(false);
            }
            run.step(SourceMove::Move(0))?;
        }
        Ok(true)
    }
}

#[test]
fn moves_that_lead_to_a_check_in_are_reported(rt: HostRuntime) -> Result<(), Fail> {
    assert!(rt; holds(rt.alloc(), &[UPDATE], &LEADS)?);
    Ok(())
}

/// Two threads that count in one object, each under a mutex.
const SHARING: &str = r#"struct s { int v; };
struct s *shared;
mtx_t m;
int add(int n) {
  int i;
  for (i = 0; i < n; i++) {
    mtx_lock(&m);
    shared->v = shared->v + 1;
    mtx_unlock(&m);
  }
  return n;
}
int main(void) {
  thrd_t a;
  thrd_t b;
  int x;
  int y;
  mtx_init(&m, mtx_plain);
  shared = calloc(1, sizeof(struct s));
  printf("%d", thrd_create(&a, add, 3));
  printf("%d", thrd_create(&b, add, 4));
  thrd_join(a, &x);
  thrd_join(b, &y);
  printf(" %d %d %d", x, y, shared->v);
  free(shared);
  return 0;
}
"#;

/// Its threads, which take turns in this order, count to 7.
struct Order([u8; 6]);

/// Orders in which three threads take turns.
static ORDERS: [Order; 4] = [
    Order([0, 1, 2, 0, 1, 2]),
    Order([2, 1, 0, 2, 1, 0]),
    Order([2, 2, 2, 1, 0, 0]),
    Order([1, 1, 0, 2, 2, 1]),
];

impl Check for Order {
    fn holds(&self, _alloc: Global, run: &mut SourceRun) -> Result<bool, Fail> {
        for _ in 0..100 {
            for slot in self.0 {
                run.step(SourceMove::Move(slot))?;
            }
        }
        Ok(
            run.output() == b"00 3 4 7".as_slice()
                && run.state() == SourceState::Finished(0)
                && !run.misused(),
        )
    }
}

#[test]
fn threads_share_an_object_under_a_mutex(rt: HostRuntime) -> Result<(), Fail> {
    for order in ORDERS.iter() {
        assert!(rt; holds(rt.alloc(), &[SHARING], order)?);
    }
    Ok(())
}

/// `main` holds the mutex that the thread wants that it joins.
const WAITING: &str = r#"mtx_t m;
int w(int x) { mtx_lock(&m); return x; }
int main(void) {
  thrd_t t;
  mtx_lock(&m);
  thrd_create(&t, w, 0);
  thrd_join(t, NULL);
  return 0;
}
"#;

/// Its threads come to wait for each other.
struct Deadlock;

impl Check for Deadlock {
    fn holds(&self, _alloc: Global, run: &mut SourceRun) -> Result<bool, Fail> {
        for slot in [0, 0, 0, 1] {
            if run.state() != SourceState::Going
                || run.step(SourceMove::Move(slot))? != Stepped::Done
            {
                return Ok(false);
            }
        }
        Ok(
            run.state() == SourceState::Stuck
                && run.ending().is_none()
                && run.waits(0) == Some(SourceWait::Thread(1))
                && run.waits(1) == Some(SourceWait::Mutex("m", 0))
                && run.waits(2).is_none(),
        )
    }
}

#[test]
fn what_threads_wait_for_is_reported(rt: HostRuntime) -> Result<(), Fail> {
    assert!(rt; holds(rt.alloc(), &[WAITING], &Deadlock)?);
    Ok(())
}
