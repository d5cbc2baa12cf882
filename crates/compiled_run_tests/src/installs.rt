//! Newer texts that are installed while both runs go on.
ghost use Rattle.std.specs.Prelude.{◌<◌};

use crate::pair::{SLOTS, are_alike, compiled_of, plain_of, step};
use crate::runs::next;
use compiled_run::CompiledRun;
use run_machine::Machine;
use source_runner::SourceRun;
use std::alloc::Global;
use std::test::Fail;
use type_transformers::{Change, transforms};

/// How many moves are tried at most.
const MOVES: usize = 400;

/// The texts of a run, in the order in which they are installed, and how many bytes have been printed when each but the first is.
type Case = (&'static [&'static str], &'static [usize]);

/// A struct that gets another layout, and a global that gets another type. `main` prints a digit before each call.
const POINT: &str = r#"struct s { int a; int b; }; struct s *p; int g = 7;
void make(void) { p = calloc(1, sizeof(struct s)); p->a = 3; p->b = 4; return; }
void show(void) { printf("%d %d %d.", p->a, p->b, g); g = g + 1; p->a = p->a + 5; return; }
void end(void) { free(p); return; }
int main(void) { make(); printf("1"); show(); printf("2"); show(); printf("3"); show(); end(); return 0; }"#;

/// Its fields are in another order, one is new, and one has another type.
const WIDER: &str =
    r#"struct s { long b; int c; int a; }; dsu_transform struct s { c = old.a + 20; }
struct s *p; long g; dsu_transform g = old * 10;
void make(void) { p = calloc(1, sizeof(struct s)); return; }
void show(void) { printf("%ld %d %d %ld.", p->b, p->c, p->a, g); g = g + 1; p->c = p->c + 1; return; }
void end(void) { free(p); return; }
int main(void) { return 0; }"#;

/// One is gone, and the last two are swapped by values.
const NARROWER: &str =
    r#"struct s { int a; int c; }; dsu_transform struct s { a = old.c; c = old.a; }
struct s *p; unsigned g; dsu_transform g = old + 1;
void make(void) { p = calloc(1, sizeof(struct s)); return; }
void show(void) { printf("%d %d %u.", p->a, p->c, g); return; }
void end(void) { free(p); return; }
int main(void) { return 0; }"#;

/// Objects, globals and arrays that change.
static VALUES: [Case; 6] = [
    (&[POINT, WIDER], &[1]),
    (&[POINT, WIDER, NARROWER], &[1, 12]),
    // Nothing uses the object between two installs.
    (&[POINT, WIDER, NARROWER], &[1, 1]),
    (&[POINT, WIDER, NARROWER, POINT], &[1, 12, 12]),
    // An array becomes longer, and then one of another type.
    (
        &[
            r#"int a[3] = {1, 2, 3}; void f(int i) { a[i] = a[i] + 4; printf("%d", a[i]); return; } int main(void) { f(0); f(1); f(2); f(2); f(1); return 0; }"#,
            r#"int a[5]; void f(int i) { a[4] = a[4] + 1; printf("%d", a[i] + a[4]); return; } int main(void) { return 0; }"#,
            r#"long a[4]; void f(int i) { a[i] = a[i] + 1l; printf("%ld", a[i]); return; } int main(void) { return 0; }"#,
        ],
        &[2, 3],
    ),
    // A struct and a global that the first text doesn't have.
    (
        &[
            r#"void f(void) { printf("a"); return; } int main(void) { f(); f(); f(); return 0; }"#,
            r#"struct t { int v; struct t *next; }; struct t *list; int n = 5; void f(void) { struct t *x; x = calloc(1, sizeof(struct t)); x->next = list; x->v = n; n++; list = x; printf("%d", list->v); return; } int main(void) { return 0; }"#,
        ],
        &[1],
    ),
];

/// Functions that change, are added, and are gone.
static BODIES: [Case; 4] = [
    // A frame of the old body goes on in it, and later calls run the new one.
    (
        &[
            r#"int f(int n) { printf("a"); printf("b"); return n + 1; } int main(void) { printf("%d", f(1)); printf("%d", f(2)); return 0; }"#,
            r#"int f(int n) { printf("c"); return n * 4; } int main(void) { return 9; }"#,
        ],
        &[1],
    ),
    // The new body calls what the first text doesn't have, and the newest one doesn't call it any more.
    (
        &[
            r#"int f(void) { return 1; } int main(void) { int i; for (i = 0; i < 5; i++) printf("%d", f()); return 0; }"#,
            "int h(int n) { if (n) return h(n - 1) + 2; return 0; } int f(void) { return h(3); } int main(void) { return 0; }",
            "int f(void) { return 8; } int main(void) { return 0; }",
        ],
        &[2, 3],
    ),
    // Before the first move the new `main` is entered.
    (
        &[
            "int main(void) { return 1; }",
            r#"int main(void) { printf("n"); return 2; }"#,
        ],
        &[0],
    ),
    // A thread that calls the old body, and others that are started when there is a new one.
    (
        &[
            r#"int n; void tick(void) { n++; printf("t"); return; } int w(int k) { int i; for (i = 0; i < k; i++) tick(); return n; } int main(void) { thrd_t a; thrd_t b; thrd_create(&a, w, 3); printf("m"); thrd_create(&b, w, 2); thrd_join(a, NULL); thrd_join(b, NULL); return n; }"#,
            r#"int n; void tick(void) { n = n + 10; printf("T%d", n); return; } int w(int k) { printf("w"); tick(); return k; } int main(void) { return 0; }"#,
        ],
        &[2],
    ),
];

/// A text that locks a mutex in each call, and one without it.
const LOCKS: &str =
    r#"mtx_t m; void f(void) { mtx_lock(&m); printf("l"); return; } int main(void) { f(); f(); f(); return 0; }"#;

const NO_MUTEX: &str = r#"void f(void) { printf("n"); return; } int main(void) { return 0; }"#;

const GUARDED: &str =
    r#"mtx_t m; mtx_t k; int n; void f(void) { mtx_lock(&k); mtx_lock(&m); n++; mtx_unlock(&m); mtx_unlock(&k); printf("%d", n); return; } int main(void) { f(); f(); f(); return 0; }"#;

/// Mutexes that are gone, and come back.
static MUTEXES: [Case; 4] = [
    (&[LOCKS, NO_MUTEX], &[1]),
    // It has lost its holder.
    (&[LOCKS, NO_MUTEX, LOCKS], &[1, 2]),
    // It keeps its holder.
    (&[LOCKS, LOCKS], &[1]),
    (&[GUARDED, NO_MUTEX, GUARDED], &[1, 2]),
];

/// The changes to one of a run's texts from the one before it.
fn changes_to(alloc: Global, run: &SourceRun, number: usize) -> Result<Vec<Change>, Fail>
    requires { 0 < number }
{
    let Some(old) = run.text(number - 1) else {
        return Err(Fail::new("the older text isn't there"));
    };
    let Some(new) = run.text(number) else {
        return Err(Fail::new("the newer text isn't there"));
    };
    match transforms(alloc, old, new) {
        Ok(changes) => Ok(changes),
        Err(_) => Err(Fail::new("a transformer has a fault")),
    }
}

/// Installs a text in both, and says whether they answer alike.
fn install(
    alloc: Global,
    plain: &mut SourceRun,
    compiled: &mut CompiledRun,
    number: usize,
) -> Result<bool, Fail>
    requires { 0 < number }
{
    let changes = changes_to(alloc, plain, number)?;
    let a = plain.install(number, changes.as_slice())?;
    let b = compiled.install(number, changes.as_slice())?;
    Ok(a == b && are_alike(plain, compiled))
}

/// Installs the texts that are due once so many bytes have been printed; so many are installed already. Says how many are then, none where
/// the runs aren't alike.
fn install_due(
    alloc: Global,
    plain: &mut SourceRun,
    compiled: &mut CompiledRun,
    due: &[usize],
    installed: usize,
) -> Result<Option<usize>, Fail> {
    let printed = plain.output().len();
    for number in installed..due.len() {
        if due[number] > printed {
            return Ok(Some(number));
        }
        if !install(alloc, plain, compiled, number + 1)? {
            return Ok(None);
        }
    }
    Ok(Some(due.len()))
}

/// Whether both go alike, with the slots in an order that a number gives, and all texts are installed.
fn go_alike(
    alloc: Global,
    plain: &mut SourceRun,
    compiled: &mut CompiledRun,
    due: &[usize],
    seed: u32,
) -> Result<bool, Fail> {
    let mut x = seed;
    let mut installed = 0;
    for _ in 0..MOVES {
        match install_due(alloc, plain, compiled, due, installed)? {
            Some(done) => installed = done,
            None => return Ok(false),
        }
        x = next(x);
        let slot = ((x >> 16) % (SLOTS as u32 + 1)) as u8;
        if !step(plain, compiled, slot, 0)? {
            return Ok(false);
        }
    }
    Ok(installed == due.len())
}

/// Whether both runs of a case go alike.
fn runs_alike(alloc: Global, case: &Case, seed: u32) -> Result<bool, Fail> {
    let mut plain = plain_of(alloc, case.0)?;
    let mut compiled = compiled_of(alloc, case.0)?;
    let alike = are_alike(&plain, &compiled)
        && go_alike(alloc, &mut plain, &mut compiled, case.1, seed)?;
    drop(compiled);
    drop(plain);
    Ok(alike)
}

/// Which of some cases is the first whose runs don't go alike, by any of three orders.
fn first_apart(alloc: Global, cases: &[Case]) -> Result<Option<usize>, Fail> {
    for (n, case) in cases.iter().enumerate() {
        for seed in 1..4u32 {
            if !runs_alike(alloc, case, seed)? {
                return Ok(Some(n));
            }
        }
    }
    Ok(None)
}

#[test]
fn data_becomes_that_of_newer_texts(rt: HostRuntime) -> Result<(), Fail> {
    let apart = first_apart(rt.alloc(), &VALUES)?;
    assert_eq!(rt; apart, None);
    Ok(())
}

#[test]
fn later_calls_run_newer_bodies(rt: HostRuntime) -> Result<(), Fail> {
    let apart = first_apart(rt.alloc(), &BODIES)?;
    assert_eq!(rt; apart, None);
    Ok(())
}

#[test]
fn mutexes_are_gone_and_come_back(rt: HostRuntime) -> Result<(), Fail> {
    let apart = first_apart(rt.alloc(), &MUTEXES)?;
    assert_eq!(rt; apart, None);
    Ok(())
}
