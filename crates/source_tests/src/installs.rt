//! Newer texts that are installed while a run goes on.
use crate::checks::{Case, Check, DONE, Ends, first_wrong, holds, take_turns};
use run_types::TrapKind;
use source_runner::{SourceRun, SourceState, Stepped};
use std::alloc::Global;
use std::test::Fail;
use type_transformers::{Change, transforms};

/// How many bytes have been printed when a text is installed, and that text's number.
type Install = (usize, usize);

/// Newer texts are installed, and then it prints this in all and ends so, without a misuse.
struct Installs(&'static [Install], Ends);

/// A text whose `main` is all that it has.
const BARE: &str = "int main(void) { return 0; }";

/// The bodies of functions.
static BODIES: [Case<Installs>; 4] = [
    // A later call runs the new body, and the frame of `main` stays in the old one.
    (
        &[
            r#"int f(void) { return 1; } int main(void) { printf("%d", f()); printf("%d", f()); printf("c"); return 0; }"#,
            r#"int f(void) { return 2; } int main(void) { printf("d"); return 9; }"#,
        ],
        Installs(&[(1, 1)], Ends("12c", DONE)),
    ),
    // A frame of the changed function that still runs stays in the old body; the next call runs the new one.
    (
        &[
            r#"void f(void) { printf("a"); printf("b"); return; } int main(void) { f(); f(); return 0; }"#,
            r#"void f(void) { printf("c"); printf("d"); return; } int main(void) { f(); f(); return 0; }"#,
        ],
        Installs(&[(1, 1)], Ends("abcd", DONE)),
    ),
    // A new body calls a function that is added. The first text can be installed again.
    (
        &[
            r#"int f(void) { return 1; } int main(void) { printf("%d", f()); printf("%d", f()); printf("%d", f()); return 0; }"#,
            "int h(void) { return 3; } int f(void) { return h(); } int main(void) { return 0; }",
        ],
        Installs(&[(1, 1), (2, 0)], Ends("131", DONE)),
    ),
    // Before the first move no frame is there, so the new `main` is entered.
    (
        &[
            "int main(void) { return 1; }",
            r#"int main(void) { printf("n"); return 2; }"#,
        ],
        Installs(&[(0, 1)], Ends("n", SourceState::Finished(2))),
    ),
];

/// A struct, whose object is made by `main`.
const CONNECTION: &str = r#"struct conn { int in; int out; };
struct conn *c;
int show(void) { printf("%d", c->in); return 0; }
int main(void) {
  c = calloc(1, sizeof(struct conn));
  c->in = 3;
  c->out = 4;
  printf("a");
  printf("b");
  show();
  return 0;
}
"#;

/// `CONNECTION` with a third field, the sum of the two.
const TOTAL: &str = r#"struct conn { int in; int out; int total; };
struct conn *c;
int show(void) { printf("%d", c->total); return 0; }
int main(void) { return 0; }
dsu_transform struct conn { total = old.in + old.out; }
"#;

/// `TOTAL` with a fourth field, made of the third.
const TWICE: &str = r#"struct conn { int in; int out; int total; int twice; };
struct conn *c;
int show(void) { printf("%d %d", c->total, c->twice); return 0; }
int main(void) { return 0; }
dsu_transform struct conn { twice = old.total * 2; }
"#;

/// Objects that were made under the first version.
static OBJECTS: [Case<Installs>; 3] = [
    // The transformers of the third text read what those of the second one made.
    (
        &[CONNECTION, TOTAL, TWICE],
        Installs(&[(1, 1), (2, 2)], Ends("ab7 14", DONE)),
    ),
    // Also where no move is made between the installs.
    (
        &[CONNECTION, TOTAL, TWICE],
        Installs(&[(2, 1), (2, 2)], Ends("ab7 14", DONE)),
    ),
    // After the first install alone.
    (&[CONNECTION, TOTAL], Installs(&[(1, 1)], Ends("ab7", DONE))),
];

/// A struct whose object only a variable of `main` knows.
const LOCAL: &str = r#"struct s { int v; };
void show(struct s *p) { printf("%d", p->v); return; }
int main(void) {
  struct s *p = calloc(1, sizeof(struct s));
  p->v = 5;
  printf("a");
  show(p);
  return 0;
}
"#;

/// `LOCAL` with another field.
const WIDER: &str = r#"struct s { int w; int v; };
void show(struct s *p) { printf("%d %d", p->w, p->v); return; }
int main(void) { return 0; }
"#;

/// The object of the first version that only the variable knows.
static LOCALS: [Case<Installs>; 3] = [
    // A field of the old layout is copied, and one that is added is zero.
    (&[LOCAL, WIDER], Installs(&[(1, 1)], Ends("a0 5", DONE))),
    // A struct that is gone and comes back makes old objects zero, in the same layout and in another.
    (
        &[LOCAL, BARE],
        Installs(&[(1, 1), (1, 0)], Ends("a0", DONE)),
    ),
    (
        &[LOCAL, BARE, WIDER],
        Installs(&[(1, 1), (1, 2)], Ends("a0 0", DONE)),
    ),
];

/// A text with globals that are set.
const SET: &str = r#"int g = 5;
int k = 1;
int a[2] = {1, 2};
int show(void) { printf("%d %d", g, k); return 0; }
int main(void) { g = 7; k = 2; a[1] = 6; printf("a"); show(); return 0; }
"#;

/// The cells of globals.
static GLOBALS: [Case<Installs>; 5] = [
    // `g` is transformed, `k` keeps its value and `n` begins with its initialiser.
    (
        &[
            SET,
            r#"long g = 9; int k = 3; int n = 4; int a[2]; int show(void) { printf("%ld %d %d", g, k, n); return 0; } int main(void) { return 0; } dsu_transform g = old + 1;"#,
        ],
        Installs(&[(1, 1)], Ends("a8 2 4", DONE)),
    ),
    // A changed type without a transformer makes it zero, and its initialiser isn't used.
    (
        &[
            SET,
            r#"long g = 9; int k; int show(void) { printf("%ld %d", g, k); return 0; } int main(void) { return 0; }"#,
        ],
        Installs(&[(1, 1)], Ends("a0 2", DONE)),
    ),
    // A longer array keeps its elements, and the order of definitions doesn't matter.
    (
        &[
            SET,
            r#"int a[3] = {8, 8, 8}; int k = 8; int g = 8; int show(void) { printf("%d %d %d %d %d", g, k, a[0], a[1], a[2]); return 0; } int main(void) { return 0; }"#,
        ],
        Installs(&[(1, 1)], Ends("a7 2 1 6 0", DONE)),
    ),
    // A global that is gone and comes back begins with its initialiser.
    (
        &[SET, BARE],
        Installs(&[(1, 1), (1, 0)], Ends("a5 1", DONE)),
    ),
    // A value goes through two transformers.
    (
        &[
            SET,
            "long g; int k; int show(void) { return 0; } int main(void) { return 0; } dsu_transform g = old * 10;",
            r#"int g; int k; int show(void) { printf("%d", g); return 0; } int main(void) { return 0; } dsu_transform g = old + 1;"#,
        ],
        Installs(&[(1, 1), (1, 2)], Ends("a71", DONE)),
    ),
];

/// `main` holds a mutex and locks it again.
const LOCKS: &str = r#"mtx_t m;
int main(void) { mtx_lock(&m); printf("a"); mtx_lock(&m); printf("b"); mtx_unlock(&m); return 0; }
"#;

/// `main` holds a mutex and unlocks it.
const UNLOCKS: &str = r#"mtx_t m;
int main(void) { mtx_lock(&m); printf("a"); mtx_unlock(&m); printf("b"); return 0; }
"#;

/// Mutexes that `main` holds.
static MUTEXES: [Case<Installs>; 4] = [
    // One that is gone has lost its holder, so that it is free where its name comes back.
    (
        &[LOCKS, BARE],
        Installs(&[(1, 1), (1, 0)], Ends("ab", DONE)),
    ),
    (
        &[UNLOCKS, BARE],
        Installs(
            &[(1, 1), (1, 0)],
            Ends("a", SourceState::Trap(TrapKind::Unlock, 0)),
        ),
    ),
    // One that stays keeps its holder.
    (
        &[LOCKS, UNLOCKS],
        Installs(
            &[(1, 1), (1, 0)],
            Ends("a", SourceState::Trap(TrapKind::Relock, 0)),
        ),
    ),
    (&[UNLOCKS, LOCKS], Installs(&[(1, 1)], Ends("ab", DONE))),
];

/// The changes from one of a run's texts to another.
pub(crate) fn changes_between(
    alloc: Global,
    run: &SourceRun,
    from: usize,
    to: usize,
) -> Result<Vec<Change>, Fail> {
    let Some(old) = run.text(from) else {
        return Err(Fail::new("the older text isn't there"));
    };
    let Some(new) = run.text(to) else {
        return Err(Fail::new("the newer text isn't there"));
    };
    match transforms(alloc, old, new) {
        Ok(changes) => Ok(changes),
        Err(_) => Err(Fail::new("a transformer has a fault")),
    }
}

/// Installs one of a run's texts, where another is in force.
pub(crate) fn install(
    alloc: Global,
    run: &mut SourceRun,
    from: usize,
    to: usize,
) -> Result<Stepped, Fail> {
    let changes = changes_between(alloc, run, from, to)?;
    Ok(run.install(to, changes.as_slice())?)
}

/// Installs texts one by one, each once its output has been printed, and says whether all are installed.
pub(crate) fn installs_all(
    alloc: Global,
    run: &mut SourceRun,
    installs: &[Install],
) -> Result<bool, Fail> {
    let mut from = 0;
    for (printed, to) in installs {
        if !take_turns(run, Some(*printed))? || install(alloc, run, from, *to)? != Stepped::Done {
            return Ok(false);
        }
        from = *to;
    }
    Ok(true)
}

impl Check for Installs {
    fn holds(&self, alloc: Global, run: &mut SourceRun) -> Result<bool, Fail> {
        Ok(installs_all(alloc, run, self.0)? && self.1.holds(alloc, run)? && !run.misused())
    }
}

#[test]
fn later_calls_run_new_bodies(rt: HostRuntime) -> Result<(), Fail> {
    let wrong = first_wrong(rt.alloc(), &BODIES)?;
    assert_eq!(rt; wrong, None);
    Ok(())
}

#[test]
fn old_objects_become_those_of_new_layouts(rt: HostRuntime) -> Result<(), Fail> {
    let wrong = first_wrong(rt.alloc(), &OBJECTS)?;
    assert_eq!(rt; wrong, None);
    Ok(())
}

#[test]
fn objects_that_a_variable_knows_become_those_of_new_layouts(rt: HostRuntime) -> Result<(), Fail> {
    let wrong = first_wrong(rt.alloc(), &LOCALS)?;
    assert_eq!(rt; wrong, None);
    Ok(())
}

#[test]
fn globals_keep_or_change_their_values(rt: HostRuntime) -> Result<(), Fail> {
    let wrong = first_wrong(rt.alloc(), &GLOBALS)?;
    assert_eq!(rt; wrong, None);
    Ok(())
}

#[test]
fn mutexes_that_are_gone_lose_their_holders(rt: HostRuntime) -> Result<(), Fail> {
    let wrong = first_wrong(rt.alloc(), &MUTEXES)?;
    assert_eq!(rt; wrong, None);
    Ok(())
}

/// It ends so, and then takes no text.
struct Closes(SourceState);

impl Check for Closes {
    fn holds(&self, alloc: Global, run: &mut SourceRun) -> Result<bool, Fail> {
        take_turns(run, None)?;
        Ok(
            install(alloc, run, 0, 1)? == Stepped::CannotMove
                && run.state() == self.0
                && run.version() == 1,
        )
    }
}

static OVER: [Case<Closes>; 2] = [
    (&[BARE, BARE], Closes(DONE)),
    (
        &["int main(void) { return 1 / 0; }", BARE],
        Closes(SourceState::Trap(TrapKind::Divide, 0)),
    ),
];

#[test]
fn nothing_is_installed_in_a_run_that_is_over(rt: HostRuntime) -> Result<(), Fail> {
    let wrong = first_wrong(rt.alloc(), &OVER)?;
    assert_eq!(rt; wrong, None);
    Ok(())
}

/// It refuses the text with a number, and goes on.
struct Refuses(usize);

static NUMBERS: [Refuses; 3] = [Refuses(2), Refuses(3), Refuses(usize::MAX)];

impl Check for Refuses {
    fn holds(&self, alloc: Global, run: &mut SourceRun) -> Result<bool, Fail> {
        Ok(
            run.install(self.0, &[])? == Stepped::CannotMove
                && run.version() == 1
                && Ends("", DONE).holds(alloc, run)?,
        )
    }
}

#[test]
fn a_number_of_no_text_is_refused(rt: HostRuntime) -> Result<(), Fail> {
    for check in NUMBERS.iter() {
        assert!(rt; holds(rt.alloc(), &[BARE, BARE], check)?);
    }
    Ok(())
}
