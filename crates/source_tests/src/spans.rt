//! The versions that the definitions of transactions share, where newer texts are installed before, within and after them.
use crate::checks::{OBJECTS, SLOTS, TURNS, read_all};
use crate::installs::changes_between;
use recorded_runs::RecordedRun;
use source_runner::{SourceMove, Stepped};
use std::alloc::{AllocError, Global};
use std::test::Fail;
use version_spans::Span;

/// How many bytes have been printed when a text is installed, and that text's number.
type Install = (usize, usize);

/// A slot, and the least and the greatest version that the definitions of a record of its thread share.
type Row = (u8, usize, usize);

/// Some texts, of which the first is run and others are installed. Once this is printed, the run has these spans.
type Case = (
    &'static [&'static str],
    &'static [Install],
    &'static str,
    &'static [Row],
);

/// A transaction with an update point.
const UPDATE: &str = "int main(void) { dsu_tx { dsu_update(); } return 0; }";

/// A transaction that calls `f` twice, and a call after it.
const TWICE: &str = r#"int f(void) { return 1; }
int main(void) { dsu_tx { f(); printf("a"); f(); printf("b"); } printf("c"); f(); printf("d"); return 0; }
"#;

/// A transaction that begins after something is printed.
const LATER: &str = r#"int f(void) { return 1; }
int main(void) { printf("a"); dsu_tx { f(); printf("b"); } printf("c"); return 0; }
"#;

/// A transaction that calls `f` and then `h`.
const BOTH: &str = r#"int f(void) { return 1; }
int h(void) { return 1; }
int main(void) { dsu_tx { f(); printf("a"); h(); printf("b"); } printf("c"); return 0; }
"#;

/// A transaction within another.
const NESTED: &str = r#"int f(void) { return 1; }
int main(void) { dsu_tx { dsu_tx { f(); } printf("a"); f(); } printf("b"); return 0; }
"#;

/// A transaction that uses no name.
const NOTHING: &str =
    r#"int main(void) { printf("a"); dsu_tx { printf("b"); } printf("c"); return 0; }"#;

/// A transaction that uses a struct.
const STRUCT: &str = r#"struct s { int v; };
int main(void) {
  struct s *p = calloc(1, sizeof(struct s));
  dsu_tx { p->v = 1; printf("a"); }
  printf("b");
  return 0;
}
"#;

/// Two threads, each in a transaction; that of the started one ends first.
const THREADS: &str = r#"int f(void) { return 1; }
int w(int x) { dsu_tx { f(); printf("b"); } return x; }
int main(void) {
  thrd_t t;
  dsu_tx { f(); printf("a"); thrd_create(&t, w, 0); thrd_join(t, NULL); printf("c"); }
  printf("d");
  return 0;
}
"#;

/// `f` as it is in the others, or changed, or gone.
const SAME: &str = "int f(void) { return 1; } int g; int main(void) { return 0; }";

const CHANGED: &str = "int f(void) { return 2; } int main(void) { return 0; }";

const CHANGED_TOO: &str = "int f(void) { return 2; } int g; int main(void) { return 0; }";

const GONE: &str = "int main(void) { return 0; }";

/// One text is installed at most.
static ONE: [Case; 19] = [
    // No text is installed.
    (&[TWICE], &[], "a", &[(0, 1, 1)]),
    (&[TWICE], &[], "abcd", &[(0, 1, 1)]),
    (&[LATER], &[], "a", &[]),
    // A used name changes within the transaction and is used again: no version has both of its definitions.
    (&[TWICE, CHANGED], &[(1, 1)], "abc", &[(0, 0, 0)]),
    // It changes within the transaction, and isn't used again yet.
    (&[TWICE, CHANGED], &[(1, 1)], "a", &[(0, 1, 1)]),
    // It changes after the transaction.
    (&[TWICE, CHANGED], &[(3, 1)], "abcd", &[(0, 1, 1)]),
    // It changes before.
    (&[LATER, CHANGED], &[(1, 1)], "abc", &[(0, 2, 2)]),
    // It stays, within and after the transaction and before.
    (&[TWICE, SAME], &[(1, 1)], "abc", &[(0, 1, 2)]),
    (&[TWICE, SAME], &[(3, 1)], "abcd", &[(0, 1, 2)]),
    (&[LATER, SAME], &[(1, 1)], "abc", &[(0, 1, 2)]),
    // It is gone after the transaction.
    (&[TWICE, GONE], &[(3, 1)], "abc", &[(0, 1, 1)]),
    // The outermost transaction has one record.
    (&[NESTED], &[], "ab", &[(0, 1, 1)]),
    (&[NESTED, CHANGED], &[(1, 1)], "ab", &[(0, 0, 0)]),
    // A record without a name has all versions.
    (&[NOTHING, GONE], &[(1, 1)], "ab", &[(0, 1, 2)]),
    (&[NOTHING, CHANGED], &[(2, 1)], "abc", &[(0, 1, 2)]),
    // A struct's layout changes, or stays.
    (
        &[
            STRUCT,
            "struct s { int v; int w; }; int main(void) { return 0; }",
        ],
        &[(1, 1)],
        "ab",
        &[(0, 1, 1)],
    ),
    (
        &[
            STRUCT,
            "int g; struct s { int v; }; int main(void) { return 0; }",
        ],
        &[(1, 1)],
        "ab",
        &[(0, 1, 2)],
    ),
    // Two names, of which the second changes before it is used, or after.
    (
        &[
            BOTH,
            "int f(void) { return 1; } int h(void) { return 2; } int main(void) { return 0; }",
        ],
        &[(1, 1)],
        "abc",
        &[(0, 2, 2)],
    ),
    (
        &[
            BOTH,
            "int f(void) { return 1; } int h(void) { return 2; } int main(void) { return 0; }",
        ],
        &[(2, 1)],
        "abc",
        &[(0, 1, 1)],
    ),
];

/// Two texts are installed.
static TWO: [Case; 4] = [
    // The definition that is used comes with the second version and stays in the third.
    (
        &[LATER, CHANGED, CHANGED_TOO],
        &[(1, 1), (2, 2)],
        "abc",
        &[(0, 2, 3)],
    ),
    // The third version has that of the first again, which is another one.
    (&[LATER, CHANGED], &[(1, 1), (2, 0)], "abc", &[(0, 2, 2)]),
    // It stays in the second version and changes in the third.
    (
        &[TWICE, SAME, CHANGED],
        &[(1, 1), (3, 2)],
        "abcd",
        &[(0, 1, 2)],
    ),
    // `h` comes with the second version, and `f` ends with it.
    (
        &[
            BOTH,
            "int f(void) { return 1; } int h(void) { return 2; } int main(void) { return 0; }",
            "int f(void) { return 2; } int h(void) { return 2; } int main(void) { return 0; }",
        ],
        &[(1, 1), (2, 2)],
        "abc",
        &[(0, 2, 2)],
    ),
];

/// Two threads.
static BY_SLOT: [Case; 4] = [
    // Open records by slot; closed ones before them.
    (&[THREADS], &[], "ab", &[(0, 1, 1), (1, 1, 1)]),
    (&[THREADS], &[], "abc", &[(1, 1, 1), (0, 1, 1)]),
    // Closed ones in the order of their ends.
    (&[THREADS], &[], "abcd", &[(1, 1, 1), (0, 1, 1)]),
    // The text changes before the second thread calls.
    (
        &[
            THREADS,
            r#"int f(void) { return 2; }
int w(int x) { dsu_tx { f(); printf("b"); } return x; }
int main(void) { return 0; }
"#,
        ],
        &[(1, 1)],
        "abcd",
        &[(1, 2, 2), (0, 1, 1)],
    ),
];

/// A thread that waits in a transaction until `main` has returned.
const LEFT: &str = r#"mtx_t m;
int f(void) { return 1; }
int w(int x) { dsu_tx { f(); mtx_lock(&m); } return x; }
int main(void) {
  thrd_t t;
  int i;
  mtx_init(&m, mtx_plain);
  mtx_lock(&m);
  thrd_create(&t, w, 0);
  for (i = 0; i < 9; i++) printf("a");
  return 0;
}
"#;

/// Some texts, what is installed, whether a definition is misused in the end, and the spans of the run that is over.
type Ended = (
    &'static [&'static str],
    &'static [Install],
    bool,
    &'static [Row],
);

/// Records that are open where a run ends.
static ENDED: [Ended; 3] = [
    // `main` returns while another thread is in a transaction.
    (&[LEFT], &[], false, &[(1, 1, 1)]),
    // A trap.
    (
        &[
            "int f(void) { return 1; } int main(void) { int z = 0; dsu_tx { f(); z = 1 / z; } return z; }",
        ],
        &[],
        false,
        &[(0, 1, 1)],
    ),
    // A use of a name that is gone is no use of the record.
    (&[TWICE, GONE], &[(1, 1)], true, &[(0, 1, 1)]),
];

/// How many records have a span after each move of `main`: one from the begin of its transaction on.
static AFTER_MOVES: [usize; 5] = [0, 1, 1, 1, 1];

/// Moves the threads in turn up to where so many bytes have been printed, and says whether they have.
fn take_turns(run: &mut RecordedRun, printed: usize) -> Result<bool, AllocError> {
    for _ in 0..TURNS {
        for slot in 0..SLOTS {
            if run.run().output().len() == printed {
                return Ok(true);
            }
            run.step(SourceMove::Move(slot))?;
        }
    }
    Ok(false)
}

/// Installs one of a run's texts, where another is in force.
fn install(alloc: Global, run: &mut RecordedRun, from: usize, to: usize) -> Result<Stepped, Fail> {
    let changes = changes_between(alloc, run.run(), from, to)?;
    Ok(run.install(to, changes.as_slice())?)
}

/// Installs texts one by one, each once its output has been printed, and says whether all are installed.
fn installs_all(alloc: Global, run: &mut RecordedRun, installs: &[Install]) -> Result<bool, Fail> {
    let mut from = 0;
    for (printed, to) in installs {
        if !take_turns(run, *printed)? || install(alloc, run, from, *to)? != Stepped::Done {
            return Ok(false);
        }
        from = *to;
    }
    Ok(true)
}

/// Whether a run has these spans.
fn has_spans(run: &RecordedRun, rows: &[Row]) -> Result<bool, AllocError> {
    let spans = run.spans()?;
    if spans.len() != rows.len() {
        return Ok(false);
    }
    for (span, (slot, first, last)) in spans.iter().zip(rows.iter()) {
        let expected = Span {
            slot: *slot,
            first: *first,
            last: *last,
        };
        if *span != expected {
            return Ok(false);
        }
    }
    Ok(true)
}

/// The recorded run of the first of some texts.
fn run_over(alloc: Global, sources: &[&str]) -> Result<RecordedRun, Fail> {
    let texts = read_all(alloc, sources)?;
    if texts.is_empty() {
        return Err(Fail::new("there is no text"));
    }
    Ok(RecordedRun::new(alloc, texts, OBJECTS, SLOTS)?)
}

/// Whether a run does what a case says.
fn does(
    alloc: Global,
    run: &mut RecordedRun,
    installs: &[Install],
    output: &str,
    rows: &[Row],
) -> Result<bool, Fail> {
    Ok(
        installs_all(alloc, run, installs)?
            && take_turns(run, output.len())?
            && run.run().output() == output.as_bytes()
            && !run.run().misused()
            && has_spans(run, rows)?,
    )
}

/// The row of the first case that doesn't hold.
fn first_wrong(alloc: Global, cases: &[Case]) -> Result<Option<usize>, Fail> {
    for (row, (texts, installs, output, rows)) in cases.iter().enumerate() {
        let mut run = run_over(alloc, *texts)?;
        let held = does(alloc, &mut run, *installs, *output, *rows);
        drop(run);
        if !held? {
            return Ok(Some(row));
        }
    }
    Ok(None)
}

#[test]
fn transactions_around_an_install_have_their_spans(rt: HostRuntime) -> Result<(), Fail> {
    let wrong = first_wrong(rt.alloc(), &ONE)?;
    assert_eq!(rt; wrong, None);
    Ok(())
}

#[test]
fn transactions_around_two_installs_have_their_spans(rt: HostRuntime) -> Result<(), Fail> {
    let wrong = first_wrong(rt.alloc(), &TWO)?;
    assert_eq!(rt; wrong, None);
    Ok(())
}

#[test]
fn spans_are_listed_by_their_ends_and_then_by_slot(rt: HostRuntime) -> Result<(), Fail> {
    let wrong = first_wrong(rt.alloc(), &BY_SLOT)?;
    assert_eq!(rt; wrong, None);
    Ok(())
}

/// Whether a run ends with these spans.
fn ends(
    alloc: Global,
    run: &mut RecordedRun,
    installs: &[Install],
    misused: bool,
    rows: &[Row],
) -> Result<bool, Fail> {
    let installed = installs_all(alloc, run, installs)?;
    take_turns(run, usize::MAX)?;
    Ok(
        installed
            && run.run().misused() == misused
            && !run.run().can_move(0)
            && has_spans(run, rows)?,
    )
}

#[test]
fn open_records_stay_where_a_run_ends(rt: HostRuntime) -> Result<(), Fail> {
    let alloc = rt.alloc();
    for (texts, installs, misused, rows) in ENDED.iter() {
        let mut run = run_over(alloc, *texts)?;
        let held = ends(alloc, &mut run, *installs, *misused, *rows);
        drop(run);
        assert!(rt; held?);
    }
    Ok(())
}

/// Whether a run has as many spans after each move of `main`.
fn counts(run: &mut RecordedRun, after: &[usize]) -> Result<bool, Fail> {
    for count in after {
        if run.step(SourceMove::Move(0))? != Stepped::Done || run.spans()?.len() != *count {
            return Ok(false);
        }
    }
    Ok(run.step(SourceMove::Move(0))? == Stepped::CannotMove && has_spans(run, &[(0, 1, 1)])?)
}

#[test]
fn a_record_is_open_from_the_begin_of_its_transaction_on(rt: HostRuntime) -> Result<(), Fail> {
    let mut run = run_over(rt.alloc(), &[UPDATE])?;
    let held = counts(&mut run, &AFTER_MOVES);
    drop(run);
    assert!(rt; held?);
    Ok(())
}
