//! The text of the effects of small programs, and a sink that fails.
use crate::fixtures::{sink_of, typed_of};
use dsu_io::MemorySink;
use dsu_report::ReportFault;
use effects_report::write_effects;
use std::alloc::Global;

/// Calls in a transaction, one inside the arguments of another function.
const NESTED: &str = "int h(void) { return 0; }
int g(void) { return 1; }
int f(void) { return g(); }
int main(void) {
  dsu_tx {
    printf(\"start\\n\");
    h();
    printf(\"%d\\n\", g());
    printf(\"%d\\n\", f());
  }
  return 0;
}
";

const NESTED_EFFECTS: &str = "function h:
  1:5 entry prior: h future: f g concrete: f g
function g:
  2:5 entry prior: f g h future: f g concrete: f
function f: g
  3:5 entry prior: f g h future: g concrete: g
  3:22 call prior: f g h future: concrete:
function main: f g h
  4:5 entry prior: future: f g h concrete: f g h
  5:3 begin prior: future: f g h concrete: f g h
  7:5 call prior: h future: f g concrete: f g
  8:20 call prior: g h future: f g concrete: f
  9:20 call prior: f g h future: concrete:
  10:3 end prior: future: concrete:
";

/// Names of each kind, a struct's with a blank in it; an update point, and no transaction.
const NAMES: &str = "struct s { int a; };
struct s *p;
mtx_t m;
int g;
int b(int n) { g = n; return n; }
int main(void) {
  p = calloc(1, sizeof(struct s));
  dsu_update();
  mtx_lock(&m);
  return b(p->a);
}
";

const NAMES_EFFECTS: &str = "function b: g
  5:5 entry prior: future: g concrete: g
function main: b g m p struct s
  6:5 entry prior: future: b g m p struct s concrete: b m p struct s
  8:3 update prior: future: b g m p struct s concrete: b m p struct s
  10:10 call prior: future: concrete:
";

/// A function that calls itself, in a transaction and outside of one; two that call each other; and one that is never called.
const CYCLES: &str = "int x;
int y;
int even(int n);
int odd(int n) {
  if (n == 0) return 0;
  return even(n - 1);
}
int even(int n) {
  x = n;
  if (n == 0) return 1;
  return odd(n - 1);
}
int alone(void) { y = 1; return 0; }
int down(int n) {
  if (n) {
    dsu_update();
    down(n - 1);
  }
  return 0;
}
int main(void) {
  down(2);
  dsu_tx {
    down(1);
    even(3);
  }
  return 0;
}
";

const CYCLES_EFFECTS: &str = "function odd: even odd x
  4:5 entry prior: down even odd x future: even odd x concrete: even
  6:10 call prior: down even odd x future: concrete:
function even: even odd x
  8:5 entry prior: down even odd x future: even odd x concrete: odd x
  11:10 call prior: down even odd x future: concrete:
function alone: y
  13:5 entry prior: future: y concrete: y
function down: down
  14:5 entry prior: down future: down even odd x concrete: down even
  16:5 update prior: down future: down even odd x concrete: down even
  17:5 call prior: down future: down even odd x concrete: down even
function main: down even odd x
  21:5 entry prior: future: down even odd x concrete: down even
  22:3 call prior: future: down even odd x concrete: down even
  23:3 begin prior: future: down even odd x concrete: down even
  24:5 call prior: down future: even odd x concrete: even
  25:5 call prior: down even odd x future: concrete:
  26:3 end prior: future: concrete:
";

/// Writes the effects of a text, and says how the call ended.
fn write(alloc: Global, text: &str, sink: &mut MemorySink) -> Option<Result<(), ReportFault>> {
    let typed = typed_of(alloc, text)?;
    let ended = write_effects(alloc, &typed, text.as_bytes(), sink);
    drop(typed);
    Some(ended)
}

/// Whether the call ends so for a text, over a sink whose calls with these numbers fail and which then has these bytes.
fn writes(
    alloc: Global,
    text: &str,
    failing: &[u64],
    ended: Result<(), ReportFault>,
    bytes: &str,
) -> Option<bool> {
    let mut sink = sink_of(alloc, 4000, failing).ok()?;
    let found = write(alloc, text, &mut sink)?;
    Some(found == ended && sink.bytes() == bytes.as_bytes())
}

#[test]
fn calls_in_a_transaction(rt: HostRuntime) {
    let is_written = writes(rt.alloc(), NESTED, &[], Ok(()), NESTED_EFFECTS);
    assert!(rt; is_written == Some(true));
}

#[test]
fn names_of_each_kind(rt: HostRuntime) {
    let is_written = writes(rt.alloc(), NAMES, &[], Ok(()), NAMES_EFFECTS);
    assert!(rt; is_written == Some(true));
}

#[test]
fn functions_that_call_each_other(rt: HostRuntime) {
    let is_written = writes(rt.alloc(), CYCLES, &[], Ok(()), CYCLES_EFFECTS);
    assert!(rt; is_written == Some(true));
}

#[test]
fn a_sink_that_fails(rt: HostRuntime) {
    let failed = Err(ReportFault::Failed);
    let is_written = writes(rt.alloc(), NESTED, &[3], failed, "function h");
    assert!(rt; is_written == Some(true));
}
