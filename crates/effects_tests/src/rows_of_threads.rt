//! The rows in force over a text whose function 3 calls three functions in a transaction, one of which calls another, and
//! over its version with a newer body of function 3.
use crate::bodies::Kind::{After, Begin, End, Print, Return, Uses};
use crate::bodies::Next::{On, Out};
use crate::bodies::{Body, Drawn, bodies_of, has, skeleton, store_of};
use checkin_rows::Rows;
use code_store::{Store, StoredBody};
use dsu_io::Boxed;
use name_sets::NameId;
use rows_in_force::{Origin, row_of, rows};
use skeletons::{CheckInKind, Use};
use std::alloc::Global;
use std::test::Fail;

/// A body that returns at once.
const LEAF: &[Drawn] = &[(After(CheckInKind::Entry), 0, On), (Return, 0, Out)];

/// A body that calls function 1.
const CALLER: &[Drawn] = &[
    (After(CheckInKind::Entry), 0, On),
    (Uses(Use::Call, 1), 0, On),
    (After(CheckInKind::Call), 0, On),
    (Return, 0, Out),
];

/// A body that calls functions 2, 1 and 0 in a transaction.
const TRANSACTION: &[Drawn] = &[
    (After(CheckInKind::Entry), 0, On),
    (Begin, 0, On),
    (After(CheckInKind::Begin), 1, On),
    (Print, 1, On),
    (Uses(Use::Call, 2), 1, On),
    (After(CheckInKind::Call), 1, On),
    (Uses(Use::Call, 1), 1, On),
    (After(CheckInKind::Call), 1, On),
    (Uses(Use::Call, 0), 1, On),
    (After(CheckInKind::Call), 1, On),
    (End, 1, On),
    (After(CheckInKind::End), 0, On),
    (Return, 0, Out),
];

static BODIES: [Body; 5] = [
    Body {
        function: 0,
        generation: 1,
        points: CALLER,
    },
    Body {
        function: 1,
        generation: 1,
        points: LEAF,
    },
    Body {
        function: 2,
        generation: 1,
        points: LEAF,
    },
    Body {
        function: 3,
        generation: 1,
        points: TRANSACTION,
    },
    Body {
        function: 3,
        generation: 3,
        points: LEAF,
    },
];

/// The bodies, and the rows over them.
#[derive(Drop)]
struct WithRows {
    store: Store,
    rows: Rows,
}

fn both_texts(alloc: Global) -> Result<Boxed<WithRows>, Fail> {
    let store = store_of(alloc, bodies_of(alloc, &BODIES)?)?;
    match rows(alloc, &store) {
        Ok(rows) => Ok(Boxed::of(alloc, WithRows { store, rows })?),
        Err(fault) => Err(fault.into()),
    }
}

#[test]
fn check_in_after_a_call(rt: HostRuntime) -> Result<(), Fail> {
    let alloc = rt.alloc();
    let main = NameId::new(3).ok_or("an id")?;
    let texts = both_texts(alloc)?;
    let WithRows { store, rows } = texts.get();
    let bodies = store.bodies();
    let row = row_of(rows, bodies, Origin::Passed(main, 2, 6));
    has(&rt, &row.prior, "012");
    has(&rt, &row.future, "01");
    has(&rt, &row.concrete, "01");
    let other = row_of(rows, bodies, Origin::Passed(main, 3, 0));
    has(&rt, &other.prior, "");
    has(&rt, &other.future, "");
    Ok(())
}

#[test]
fn starts(rt: HostRuntime) -> Result<(), Fail> {
    let alloc = rt.alloc();
    let main = NameId::new(3).ok_or("an id")?;
    let unknown = NameId::new(4).ok_or("an id")?;
    let texts = both_texts(alloc)?;
    let WithRows { store, rows } = texts.get();
    let bodies = store.bodies();
    let row = row_of(rows, bodies, Origin::Start(main));
    has(&rt, &row.prior, "");
    has(&rt, &row.future, "012");
    has(&rt, &row.concrete, "0123");
    let none = row_of(rows, bodies, Origin::Start(unknown));
    has(&rt, &none.future, "");
    has(&rt, &none.concrete, "4");
    Ok(())
}

#[test]
fn rows_of_a_store(rt: HostRuntime) -> Result<(), Fail> {
    let alloc = rt.alloc();
    let f = NameId::new(0).ok_or("an id")?;
    let called = StoredBody {
        function: f,
        generation: 1,
        tokens: 1,
        skeleton: skeleton(alloc, CALLER)?,
    };
    let mut store = Store::new(alloc);
    if store.add(called).is_err() {
        return Err("room for a body".into());
    }
    let rows = rows(alloc, &store)?;
    let row = row_of(&rows, store.bodies(), Origin::Start(f));
    has(&rt, &row.future, "1");
    has(&rt, &row.concrete, "01");
    Ok(())
}
