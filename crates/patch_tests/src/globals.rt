//! The cells of globals.
use crate::pairs::{Case, first_wrong};
use crate::values::{FIVE, LONG_ZERO, NULL, SEVENTH, THREE, ZERO};
use c_ints::Int;
use local_evaluation::Value;
use std::test::Fail;

static CASES: [Case; 11] = [
    // of another type; its initialiser isn't used
    Case {
        old: "int g;",
        new: "long g = 9;",
        values: &[FIVE],
        due: &[LONG_ZERO],
    },
    // given
    Case {
        old: "int g;",
        new: "long g;\ndsu_transform g = old + 1;",
        values: &[FIVE],
        due: &[Value::Number(Int::I64(6))],
    },
    // a longer array
    Case {
        old: "int g[2];",
        new: "int g[4];",
        values: &[THREE, FIVE],
        due: &[THREE, FIVE, ZERO, ZERO],
    },
    // a shorter array
    Case {
        old: "int g[3];",
        new: "int g[2];",
        values: &[THREE, FIVE, ZERO],
        due: &[THREE, FIVE],
    },
    // an array of another type
    Case {
        old: "int g[2];",
        new: "long g[2];",
        values: &[THREE, FIVE],
        due: &[LONG_ZERO, LONG_ZERO],
    },
    // an array that has another length and another type
    Case {
        old: "int g[2];",
        new: "long g[1];",
        values: &[THREE, FIVE],
        due: &[LONG_ZERO],
    },
    // a variable that becomes an array
    Case {
        old: "int g;",
        new: "int g[2];",
        values: &[FIVE],
        due: &[ZERO, ZERO],
    },
    // an array that becomes a variable
    Case {
        old: "int g[2];",
        new: "int g;",
        values: &[THREE, FIVE],
        due: &[ZERO],
    },
    // handles
    Case {
        old: "struct s { int a; };\nstruct s *g[1];",
        new: "struct s { int a; };\nstruct s *g[2];",
        values: &[SEVENTH],
        due: &[SEVENTH, NULL],
    },
    // a handle of another struct
    Case {
        old: "struct s { int a; };\nstruct t { int a; };\nstruct s *g;",
        new: "struct s { int a; };\nstruct t { int a; };\nstruct t *g;",
        values: &[SEVENTH],
        due: &[NULL],
    },
    // what was no variable
    Case {
        old: "mtx_t g;",
        new: "int g;",
        values: &[],
        due: &[ZERO],
    },
];

#[test]
fn cells_become_new_ones(rt: HostRuntime) -> Result<(), Fail> {
    let wrong = first_wrong(rt.alloc(), &CASES)?;
    assert!(rt; wrong.is_none(), "row {wrong:?}");
    Ok(())
}
