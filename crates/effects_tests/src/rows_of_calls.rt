//! The rows of two functions, one of which calls the other, which has two bodies.
use crate::bodies::Kind::{After, Return, Uses};
use crate::bodies::Next::{On, Out};
use crate::bodies::{Body, Drawn, bodies_of, has, store_of};
use checkin_rows::Rows;
use name_sets::NameId;
use rows_in_force::rows;
use skeletons::{CheckInKind, Use};
use std::process::Abort;
use std::test::Fail;

/// A body that reads the global 3.
const READER: &[Drawn] = &[
    (After(CheckInKind::Entry), 0, On),
    (Uses(Use::ReadGlobal, 3), 0, On),
    (Return, 0, Out),
];

/// Function 0 calls function 1 and then writes the global 2.
static BODIES: [Body; 3] = [
    Body {
        function: 0,
        generation: 1,
        points: &[
            (After(CheckInKind::Entry), 0, On),
            (Uses(Use::Call, 1), 0, On),
            (After(CheckInKind::Call), 0, On),
            (Uses(Use::WriteGlobal, 2), 0, On),
            (Return, 0, Out),
        ],
    },
    Body {
        function: 1,
        generation: 1,
        points: READER,
    },
    Body {
        function: 1,
        generation: 2,
        points: READER,
    },
];

/// A function, the generation of a body and the number of a check-in in it, or no such pair for the function's start, and
/// the number of the row.
static NUMBERS: [(usize, Option<(u32, usize)>, usize); 8] = [
    (0, None, 1),
    (0, Some((1, 0)), 2),
    (0, Some((1, 1)), 3),
    (1, None, 4),
    (1, Some((1, 0)), 5),
    (1, Some((2, 0)), 6),
    (1, Some((3, 0)), 0),
    (3, None, 0),
];

fn has_numbers(rt: &impl Abort, rows: &Rows) -> Result<(), Fail> {
    for (function, check_in, number) in &NUMBERS {
        let function = NameId::new(*function).ok_or("an id")?;
        let id = match check_in {
            Some((generation, check_in)) => rows.row_id(function, *generation, *check_in),
            None => rows.start_row(function),
        };
        assert_eq!(rt; id.index(), *number);
    }
    Ok(())
}

fn has_sets(rt: &impl Abort, rows: &Rows, f: NameId, g: NameId) {
    let call = rows.row(rows.row_id(f, 1, 0));
    has(rt, &call.prior, "");
    has(rt, &call.future, "123");
    has(rt, &call.concrete, "123");
    let after = rows.row(rows.row_id(f, 1, 1));
    has(rt, &after.future, "2");
    has(rt, &after.concrete, "2");
    let start = rows.row(rows.start_row(f));
    has(rt, &start.future, "123");
    has(rt, &start.concrete, "012");
    let callee = rows.row(rows.row_id(g, 2, 0));
    has(rt, &callee.concrete, "23");
    assert!(rt; *callee == *rows.row(rows.row_id(g, 1, 0)));
}

#[test]
fn rows_of_a_call(rt: HostRuntime) -> Result<(), Fail> {
    let alloc = rt.alloc();
    let f = NameId::new(0).ok_or("an id")?;
    let g = NameId::new(1).ok_or("an id")?;
    let bodies = bodies_of(alloc, &BODIES)?;
    let store = store_of(alloc, bodies)?;
    let rows = rows(alloc, &store)?;
    has_numbers(&rt, &rows)?;
    has_sets(&rt, &rows, f, g);
    Ok(())
}
