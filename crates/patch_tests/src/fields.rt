//! The fields of structs.
use crate::pairs::{Case, first_wrong};
use crate::values::{FIVE, LONG_ZERO, NO_THREAD, NULL, SEVENTH, THREAD, THREE, ZERO};
use c_ints::Int;
use local_evaluation::Value;
use std::test::Fail;

static CASES: [Case; 12] = [
    // added
    Case {
        old: "struct s { int a; };",
        new: "struct s { int a; long b; };",
        values: &[FIVE],
        due: &[FIVE, LONG_ZERO],
    },
    // removed
    Case {
        old: "struct s { int a; int b; };",
        new: "struct s { int b; };",
        values: &[THREE, FIVE],
        due: &[FIVE],
    },
    // of another type
    Case {
        old: "struct s { int a; };",
        new: "struct s { long a; };",
        values: &[FIVE],
        due: &[LONG_ZERO],
    },
    // in another order
    Case {
        old: "struct s { int a; int b; };",
        new: "struct s { int b; int a; };",
        values: &[THREE, FIVE],
        due: &[FIVE, THREE],
    },
    // given
    Case {
        old: "struct s { int a; int b; };",
        new: "struct s { int a; int b; int c; };\ndsu_transform struct s { c = old.a + old.b * 2; }",
        values: &[THREE, FIVE],
        due: &[THREE, FIVE, Value::Number(Int::I32(13))],
    },
    // given and of another type
    Case {
        old: "struct s { int a; };",
        new: "struct s { char a; };\ndsu_transform struct s { a = old.a; }",
        values: &[Value::Number(Int::I32(300))],
        due: &[Value::Number(Int::I8(44))],
    },
    // given in place of a copy
    Case {
        old: "struct s { int a; int b; };",
        new: "struct s { int b; int a; };\ndsu_transform struct s { a = old.b; }",
        values: &[THREE, FIVE],
        due: &[FIVE, FIVE],
    },
    // handles
    Case {
        old: "struct s { struct s *p; int n; };",
        new: "struct s { int n; struct s *p; struct s *q; struct s *r; };\ndsu_transform struct s { q = old.p; }",
        values: &[SEVENTH, THREE],
        due: &[THREE, SEVENTH, SEVENTH, NULL],
    },
    // a handle of another struct
    Case {
        old: "struct t { int a; };\nstruct s { struct s *p; };",
        new: "struct t { int a; };\nstruct s { struct t *p; };",
        values: &[SEVENTH],
        due: &[NULL],
    },
    // by a condition on a handle
    Case {
        old: "struct s { struct s *p; };",
        new: "struct s { struct s *p; int n; };\ndsu_transform struct s { n = old.p == NULL ? 5 : 3; }",
        values: &[SEVENTH],
        due: &[SEVENTH, THREE],
    },
    // threads
    Case {
        old: "struct s { thrd_t t; };",
        new: "struct s { int n; thrd_t t; thrd_t u; };",
        values: &[THREAD],
        due: &[ZERO, THREAD, NO_THREAD],
    },
    // with a cast, which wraps
    Case {
        old: "struct s { int a; };",
        new: "struct s { int a; int b; };\ndsu_transform struct s { b = -(unsigned char) old.a; }",
        values: &[Value::Number(Int::I32(259))],
        due: &[Value::Number(Int::I32(259)), Value::Number(Int::I32(-3))],
    },
];

#[test]
fn objects_become_new_ones(rt: HostRuntime) -> Result<(), Fail> {
    let wrong = first_wrong(rt.alloc(), &CASES)?;
    assert!(rt; wrong.is_none(), "row {wrong:?}");
    Ok(())
}
