//! Old code that uses a name whose interface has changed. Each text's `main` prints `a` and then uses the name; in the
//! newer text the name has another interface or is gone.
use crate::checks::{Case, Check, first_wrong, take_turns};
use crate::installs::{install, installs_all};
use source_runner::{SourceRun, SourceState, Stepped};
use std::alloc::Global;
use std::test::Fail;

/// With the newer text installed once it has printed `a`, it is marked at its next use, and then neither moves nor takes a
/// text.
struct Misused;

impl Check for Misused {
    fn holds(&self, alloc: Global, run: &mut SourceRun) -> Result<bool, Fail> {
        if !installs_all(alloc, run, &[(1, 1)])? || run.misused() {
            return Ok(false);
        }
        take_turns(run, None)?;
        Ok(
            run.misused()
                && run.output() == b"a".as_slice()
                && run.state() == SourceState::Stuck
                && run.ending().is_none()
                && install(alloc, run, 1, 0)? == Stepped::CannotMove
                && run.version() == 2,
        )
    }
}

/// Globals and mutexes.
static VARIABLES: [Case<Misused>; 4] = [
    // A global of another type, and one that is gone.
    (
        &[
            r#"int g; int main(void) { printf("a"); g = 1; printf("b"); return 0; }"#,
            "long g; int main(void) { return 0; }",
        ],
        Misused,
    ),
    (
        &[
            r#"int g; int main(void) { printf("a"); printf("%d", g); return 0; }"#,
            "int main(void) { return 0; }",
        ],
        Misused,
    ),
    // An array of another length.
    (
        &[
            r#"int g[2]; int main(void) { printf("a"); g[0] = 1; printf("b"); return 0; }"#,
            "int g[3]; int main(void) { return 0; }",
        ],
        Misused,
    ),
    // A mutex that is gone.
    (
        &[
            r#"mtx_t m; int main(void) { mtx_lock(&m); printf("a"); mtx_unlock(&m); printf("b"); return 0; }"#,
            "int main(void) { return 0; }",
        ],
        Misused,
    ),
];

/// Functions and structs.
static OTHERS: [Case<Misused>; 4] = [
    // A function with another signature, called and spawned.
    (
        &[
            r#"int f(int n) { printf("f"); return n; } int main(void) { printf("a"); f(1); printf("b"); return 0; }"#,
            r#"int f(long n) { printf("f"); return n; } int main(void) { return 0; }"#,
        ],
        Misused,
    ),
    (
        &[
            r#"int f(int n) { printf("f"); return n; } int main(void) { thrd_t t; printf("a"); thrd_create(&t, f, 1); printf("b"); return 0; }"#,
            r#"long f(int n) { printf("f"); return n; } int main(void) { return 0; }"#,
        ],
        Misused,
    ),
    // A struct with another layout: a field that stays is read, and an object is made.
    (
        &[
            r#"struct s { int v; }; int main(void) { struct s *p = calloc(1, sizeof(struct s)); printf("a"); printf("%d", p->v); return 0; }"#,
            "struct s { int v; int w; }; int main(void) { return 0; }",
        ],
        Misused,
    ),
    (
        &[
            r#"struct s { int v; }; int main(void) { printf("a"); struct s *p = calloc(1, sizeof(struct s)); printf("b"); return 0; }"#,
            "struct s { int v; int w; }; int main(void) { return 0; }",
        ],
        Misused,
    ),
];

#[test]
fn uses_of_changed_variables_by_old_code_mark_the_run(rt: HostRuntime) -> Result<(), Fail> {
    let wrong = first_wrong(rt.alloc(), &VARIABLES)?;
    assert_eq!(rt; wrong, None);
    Ok(())
}

#[test]
fn uses_of_changed_interfaces_by_old_code_mark_the_run(rt: HostRuntime) -> Result<(), Fail> {
    let wrong = first_wrong(rt.alloc(), &OTHERS)?;
    assert_eq!(rt; wrong, None);
    Ok(())
}
