//! Texts, with what each prints and how it ends.
use crate::checks::{Case, DONE, Ends, first_wrong, holds};
use run_types::TrapKind;
use source_runner::SourceState;
use std::alloc::Global;
use std::test::Fail;

/// Texts of which `main` returns 0, by subject, each a line: what it prints, `@`, and the text. A table of as many strings
/// would be dear to prove.
static PRINTS: [&str; 8] = [
    // Operators and conversions.
    r#"11@int main(void) { int y = 5; printf("%d", 1 + y * 2); return 0; }
-3 -1 -2@int main(void) { printf("%d %d %d", -7 / 2, -7 % 2, 7 - 9); return 0; }
2 7 5@int main(void) { printf("%d %d %d", 6 & 3, 6 | 3, 6 ^ 3); return 0; }
20 -3@int main(void) { printf("%d %d", 5 << 2, -5 >> 1); return 0; }
1010101@int main(void) { printf("%d%d%d%d%d%d", 1 < 2, 2 < 1, 2 <= 2, 2 > 2, 2 >= 2, 1 == 2); printf("%d", 1 != 2); return 0; }
-5 -6 0 5@int main(void) { int x = 5; printf("%d %d %d %d", -x, ~x, !x, +x); return 0; }
01@int main(void) { printf("%d", -1 < 1u); printf("%u", 4294967295u + 2u); return 0; }
-56 44@int main(void) { printf("%d %d", (signed char) 200, (unsigned char) 300); return 0; }
2560@int main(void) { unsigned char c; c = 255; printf("%d", c + 1); c += 1; printf("%d", c); return 0; }
2147483648@int main(void) { printf("%ld", 2147483647 + 1l); return 0; }"#,
    // A right side that isn't reached is not evaluated.
    r#"01@int main(void) { int x = 0; printf("%d%d", x && 1 / x, 1 || 1 / x); return 0; }
11@int main(void) { int x = 3; printf("%d%d", x && 7, x - 3 || x); return 0; }
23@int main(void) { int x = 0; printf("%d%d", x ? 1 / x : 2, !x ? 3 : 1 / x); return 0; }"#,
    // Assignments, steps and compound assignments, which read the variable before the right side is evaluated.
    r#"44@int main(void) { int x = 1; int y; y = x = 4; printf("%d%d", x, y); return 0; }
3@int main(void) { int x = 7; x -= 2; x *= 3; x /= 2; x %= 4; printf("%d", x); return 0; }
11@int main(void) { int x = 7; x <<= 2; x >>= 1; x |= 1; x &= 13; x ^= 6; printf("%d", x); return 0; }
56775@int main(void) { int x = 5; printf("%d", x++); printf("%d", x); printf("%d", ++x); printf("%d", x--); printf("%d", --x); return 0; }
56659@int g = 5; int main(void) { printf("%d%d", g++, g--); printf("%d%d", ++g, --g); g += 4; printf("%d", g); return 0; }
6@int g = 1; int f(void) { g = 10; return 5; } int main(void) { g += f(); printf("%d", g); return 0; }"#,
    // Calls: arguments from the left, each converted to its parameter's type, and the value to the function's.
    r#"5@int f(long a) { return a; } int main(void) { printf("%d", f(4294967301l)); return 0; }
12=-1@int p(int x) { printf("%d", x); return x; } int s(int a, int b) { return a - b; } int main(void) { printf("=%d", s(p(1), p(2))); return 0; }
720@int f(int n) { if (n < 2) return 1; return n * f(n - 1); } int main(void) { printf("%d", f(6)); return 0; }
2255@void f(unsigned char c) { printf("%d", c); return; } int main(void) { f(258); f(-1); return 0; }"#,
    // A local variable hides a global from its name on, to the end of its block.
    r#"3043@int g = 3; int f(void) { printf("%d", g); int g; printf("%d", g); g = 4; printf("%d", g); return 0; } int main(void) { f(); printf("%d", g); return 0; }
21@int main(void) { int x = 1; { int x = 2; printf("%d", x); } printf("%d", x); return 0; }"#,
    // Choices and loops, and jumps out of nested blocks.
    r#"b@int main(void) { int x = 2; if (x == 1) printf("a"); else if (x == 2) printf("b"); else printf("c"); ; return 0; }
13:44@int main(void) { int x = 0; int y = 0; while (x < 5) { x = x + 1; { if (x == 2) continue; { if (x == 4) break; y = y + x; } } printf("%d", x); } printf(":%d%d", x, y); return 0; }
023:4@int main(void) { int i; for (i = 0; i < 9; i++) { if (i == 1) continue; if (i == 4) break; printf("%d", i); } printf(":%d", i); return 0; }
134@int main(void) { int i = 0; do { i++; if (i == 2) continue; printf("%d", i); } while (i < 4); return 0; }"#,
    // A declaration without an initialiser begins with 0 each time it is run.
    r#"123@int main(void) { for (int i = 0; i < 3; i++) { int x; x += i + 1; printf("%d", x); } return 0; }"#,
    // Globals begin with their values, converted; the rest of an array with 0, and a handle with NULL.
    r#"1 -2 0 0 @int a[4] = {1, -2}; int main(void) { int i; for (i = 0; i < 4; i++) printf("%d ", a[i]); return 0; }
44@unsigned char c = 300; int main(void) { printf("%d", c); return 0; }
1@struct s { int v; }; struct s *p; int main(void) { printf("%d", p == NULL); return 0; }"#,
];

/// Formats, with the least and the greatest of each kind.
static FORMATS: [Case<Ends>; 3] = [
    (
        &[
            r#"int main(void) { printf("a%d b%u c%ld d%lu 100%%\n", -2147483647 - 1, 0u, -9223372036854775807l - 1, 0ul); return 0; }"#,
        ],
        Ends("a-2147483648 b0 c-9223372036854775808 d0 100%\n", DONE),
    ),
    (
        &[
            r#"int main(void) { printf("a%d b%u c%ld d%lu 100%%\n", 2147483647, 4294967295u, 9223372036854775807l, 18446744073709551615ul); return 0; }"#,
        ],
        Ends(
            "a2147483647 b4294967295 c9223372036854775807 d18446744073709551615 100%\n",
            DONE,
        ),
    ),
    (
        &[
            r#"int main(void) { signed char a = -128; unsigned char b = 255; short c = -32768; unsigned short d = 65535; printf("%d%d%d%d", a, b, c, d); return 0; }"#,
        ],
        Ends("-128255-3276865535", DONE),
    ),
];

/// Values that `main` returns, and operators and calls that trap. These texts and the next print nothing.
static VALUES: [Case<Ends>; 8] = [
    (
        &["int main(void) { return 1 + 1; }"],
        Ends("", SourceState::Finished(2)),
    ),
    (&["int main(void) { }"], Ends("", DONE)),
    (
        &["long f(void) { return 4294967303l; } int main(void) { return f(); }"],
        Ends("", SourceState::Finished(7)),
    ),
    (
        &["int main(void) { return 2147483647 + 1; }"],
        Ends("", SourceState::Trap(TrapKind::Overflow, 0)),
    ),
    (
        &["int main(void) { return 1 / 0; }"],
        Ends("", SourceState::Trap(TrapKind::Divide, 0)),
    ),
    (
        &["int main(void) { return 1 << 32; }"],
        Ends("", SourceState::Trap(TrapKind::Shift, 0)),
    ),
    (
        &["int a[2]; int main(void) { a[2] = 1; return 0; }"],
        Ends("", SourceState::Trap(TrapKind::Index, 0)),
    ),
    (
        &["int f(void) { return f(); } int main(void) { return f(); }"],
        Ends("", SourceState::Trap(TrapKind::Depth, 0)),
    ),
];

/// Objects, mutexes and threads.
static SHARED: [Case<Ends>; 8] = [
    // A field of no object, and of one that has ended.
    (
        &["struct s { int v; }; int main(void) { struct s *p = NULL; return p->v; }"],
        Ends("", SourceState::Trap(TrapKind::Null, 0)),
    ),
    (
        &[
            "struct s { int v; }; int main(void) { struct s *p = calloc(1, sizeof(struct s)); free(p); return p->v; }",
        ],
        Ends("", SourceState::Trap(TrapKind::Stale, 0)),
    ),
    // More objects than may live at once: the third is NULL, until one has ended.
    (
        &[
            "struct s { int v; struct s *next; }; int main(void) { struct s *a = calloc(1, sizeof(struct s)); a->next = calloc(1, sizeof(struct s)); a->next->v = 5; a->v = calloc(1, sizeof(struct s)) == NULL; free(a->next); return a->v * 10 + (calloc(1, sizeof(struct s)) != NULL); }",
        ],
        Ends("", SourceState::Finished(11)),
    ),
    // Mutexes.
    (
        &[
            "mtx_t m; int main(void) { mtx_init(&m, mtx_plain); mtx_lock(&m); mtx_unlock(&m); mtx_lock(&m); return mtx_unlock(&m); }",
        ],
        Ends("", DONE),
    ),
    (
        &["mtx_t m; int main(void) { mtx_lock(&m); mtx_lock(&m); return 0; }"],
        Ends("", SourceState::Trap(TrapKind::Relock, 0)),
    ),
    (
        &["mtx_t m; int main(void) { mtx_unlock(&m); return 0; }"],
        Ends("", SourceState::Trap(TrapKind::Unlock, 0)),
    ),
    // Threads.
    (
        &[
            "int w(int x) { return x / 0; } int main(void) { thrd_t t; thrd_create(&t, w, 1); thrd_join(t, NULL); return 0; }",
        ],
        Ends("", SourceState::Trap(TrapKind::Divide, 1)),
    ),
    (
        &[
            "mtx_t m; int w(int x) { mtx_lock(&m); return x; } int main(void) { thrd_t t; mtx_lock(&m); thrd_create(&t, w, 0); thrd_join(t, NULL); return 0; }",
        ],
        Ends("", SourceState::Stuck),
    ),
];

/// Whether the text of a line prints what the line says.
fn is_printed(alloc: Global, line: &'static str) -> Result<bool, Fail> {
    let Some((out, text)) = line.split_once("@") else {
        return Ok(false);
    };
    holds(alloc, &[text], &Ends(out, DONE))
}

/// The first of some lines whose text prints otherwise, or `None`.
fn first_other(alloc: Global, lines: &'static str) -> Result<Option<&'static str>, Fail> {
    for line in lines.lines() {
        if !is_printed(alloc, line)? {
            return Ok(Some(line));
        }
    }
    Ok(None)
}

#[test]
fn texts_print_what_c_says(rt: HostRuntime) -> Result<(), Fail> {
    for lines in PRINTS.iter() {
        let other = first_other(rt.alloc(), *lines)?;
        assert_eq!(rt; other, None);
    }
    Ok(())
}

#[test]
fn formats_print_what_c_says(rt: HostRuntime) -> Result<(), Fail> {
    let wrong = first_wrong(rt.alloc(), &FORMATS)?;
    assert_eq!(rt; wrong, None);
    Ok(())
}

#[test]
fn texts_end_as_c_and_the_profile_say(rt: HostRuntime) -> Result<(), Fail> {
    let wrong = first_wrong(rt.alloc(), &VALUES)?;
    assert_eq!(rt; wrong, None);
    Ok(())
}

#[test]
fn texts_that_share_objects_end_as_c_and_the_profile_say(rt: HostRuntime) -> Result<(), Fail> {
    let wrong = first_wrong(rt.alloc(), &SHARED)?;
    assert_eq!(rt; wrong, None);
    Ok(())
}
