//! Where runs of small texts could take newer ones, and sinks that fail.
ghost use Rattle.c_front.specs.Accepted.{Accepted};

use crate::fixtures::{sink_of, typed_of};
use admits_report::write_admission;
use c_types::Typed;
use dsu_io::MemorySink;
use dsu_report::ReportFault;
use std::alloc::{AllocError, Global};
use std::process::Abort;

/// An older text, a newer one, and what is written.
type Row = (&'static str, &'static str, &'static str);

/// A transaction that calls a function twice, of which the body changes.
const TWICE: Row = (
    "int a(void) { return 1; }
int b(void) { return 2; }
int main(void) {
  dsu_tx {
    a();
    b();
    a();
  }
  return 0;
}
",
    "int a(void) { return 3; }
int b(void) { return 2; }
int main(void) {
  dsu_tx {
    a();
    b();
    a();
  }
  return 0;
}
",
    "function a:
  start both a a
  1:5 entry both a a
function b:
  start both a a
  2:5 entry both a a
function main:
  start admitted
  3:5 entry admitted
  4:3 begin both a a
  5:5 call both a a
  6:5 call both a a
  7:5 call admitted
  8:3 end admitted
admitted at 4 of 11
",
);

/// A transaction that calls two functions, both of which change.
const PAIR: Row = (
    "int x(void) { return 1; }
int y(void) { return 2; }
int main(void) {
  dsu_tx {
    x();
    y();
  }
  return 0;
}
",
    "int x(void) { return 3; }
int y(void) { return 4; }
int main(void) {
  dsu_tx {
    x();
    y();
  }
  return 0;
}
",
    "function x:
  start both x y
  1:5 entry both x y
function y:
  start admitted
  2:5 entry admitted
function main:
  start admitted
  3:5 entry admitted
  4:3 begin both x x
  5:5 call both x y
  6:5 call admitted
  7:3 end admitted
admitted at 6 of 10
",
);

/// Pairs without a transaction: a function with other parameters, a struct with another layout, and only another body.
static OUTSIDE: [Row; 3] = [
    (
        "int f(void) { return 1; }
int main(void) {
  f();
  f();
  return 0;
}
",
        "int f(int n) { return n; }
int main(void) {
  f(1);
  f(2);
  return 0;
}
",
        "function f:
  start concrete f
  1:5 entry concrete f
function main:
  start concrete f
  2:5 entry concrete f
  3:3 call concrete f
  4:3 call admitted
admitted at 1 of 6
",
    ),
    (
        "struct s { int a; };
struct s *p;
int main(void) {
  p = calloc(1, sizeof(struct s));
  dsu_update();
  return p->a;
}
",
        "struct s { int a; int b; };
struct s *p;
int main(void) {
  p = calloc(1, sizeof(struct s));
  dsu_update();
  return p->a;
}
",
        "function main:
  start concrete struct s
  3:5 entry concrete struct s
  5:3 update concrete struct s
admitted at 0 of 3
",
    ),
    (
        "int main(void) { return 0; }",
        "int main(void) { return 1; }",
        "function main:\n  start admitted\n  1:5 entry admitted\nadmitted at 2 of 2\n",
    ),
];

/// Pairs of which the newer text is no patch.
static REFUSED: [Row; 2] = [
    (
        "int n; int main(void) { return 0; }",
        "mtx_t n; int main(void) { return 0; }",
        "not a patch: kind n\n",
    ),
    (
        "long n; int main(void) { return 0; }",
        "long n; int main(void) { return 0; }\n dsu_transform n = 1;",
        "not a patch: transform 2:2\n",
    ),
];

/// Writes where a run of a tree, that of a text, could take a newer text, and says how the call ended.
fn write_from(
    alloc: Global,
    old: &Typed,
    old_text: &str,
    new: &str,
    sink: &mut MemorySink,
) -> Option<Result<(), ReportFault>>
    requires { Accepted old_text.now old.now }
{
    let typed = typed_of(alloc, new)?;
    let (older, newer) = (old_text.as_bytes(), new.as_bytes());
    let ended = write_admission(alloc, old, older, &typed, newer, sink);
    drop(typed);
    Some(ended)
}

/// The same of two texts.
fn write(
    alloc: Global,
    old: &str,
    new: &str,
    sink: &mut MemorySink,
) -> Option<Result<(), ReportFault>> {
    let typed = typed_of(alloc, old)?;
    let ended = write_from(alloc, &typed, old, new, sink);
    drop(typed);
    ended
}

/// Whether the text of a pair is written whole.
fn is_written(alloc: Global, row: &Row) -> Option<bool> {
    let (old, new, text) = *row;
    let mut sink = sink_of(alloc, 2000, &[]).ok()?;
    let ended = write(alloc, old, new, &mut sink)?;
    Some(ended.is_ok() && sink.bytes() == text.as_bytes())
}

/// Stops the test at the first pair of which something else is written.
fn are_written(rt: &impl Abort, alloc: Global, rows: &[Row]) {
    for (place, row) in rows.iter().enumerate() {
        assert!(rt; is_written(alloc, row) == Some(true), "row {place}");
    }
}

#[test]
fn a_transaction_that_uses_a_changed_name_twice(rt: HostRuntime) {
    are_written(&rt, rt.alloc(), &[TWICE]);
}

#[test]
fn a_transaction_that_uses_two_changed_names(rt: HostRuntime) {
    are_written(&rt, rt.alloc(), &[PAIR]);
}

#[test]
fn texts_without_a_transaction(rt: HostRuntime) {
    are_written(&rt, rt.alloc(), &OUTSIDE);
}

#[test]
fn texts_that_are_no_patch(rt: HostRuntime) {
    are_written(&rt, rt.alloc(), &REFUSED);
}

#[test]
fn a_call_of_the_sink_fails(rt: HostRuntime) -> Result<(), AllocError> {
    let (old, new, _) = PAIR;
    let mut sink = sink_of(rt.alloc(), 2000, &[1])?;
    let ended = write(rt.alloc(), old, new, &mut sink);
    assert!(rt; ended == Some(Err(ReportFault::Failed)));
    assert!(rt; sink.bytes().is_empty());
    Ok(())
}

/// Room that ends in each kind of line.
static ROOMS: [usize; 4] = [4, 20, 40, 240];

#[test]
fn the_sink_is_full(rt: HostRuntime) -> Result<(), AllocError> {
    let (old, new, text) = PAIR;
    for room in &ROOMS {
        let mut sink = sink_of(rt.alloc(), *room, &[])?;
        let ended = write(rt.alloc(), old, new, &mut sink);
        assert!(rt; ended == Some(Err(ReportFault::Failed)), "{room}");
        assert!(rt; sink.bytes().len() == *room, "{room}");
        assert!(rt; text.as_bytes().starts_with(sink.bytes()), "{room}");
    }
    Ok(())
}
