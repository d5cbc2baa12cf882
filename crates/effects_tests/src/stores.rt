//! Stores of bodies that write a global: bodies that come one by one and together, that are taken out again, and one for
//! which there is no room.
use crate::bodies::writer;
use code_store::{MOST_CHECK_INS, Store, StoreFault, StoredBody};
use name_sets::NameId;
use skeletons::{CheckInKind, Point, PointKind, Skeleton};
use std::alloc::Global;
use std::test::Fail;

#[test]
fn two_versions_of_a_function(rt: HostRuntime) -> Result<(), Fail> {
    let alloc = rt.alloc();
    let f = NameId::new(3).ok_or("an id")?;
    let x = NameId::new(0).ok_or("an id")?;
    let y = NameId::new(7).ok_or("an id")?;
    let first = StoredBody {
        function: f,
        generation: 1,
        tokens: 131_000,
        skeleton: writer(alloc, 0)?,
    };
    let second = StoredBody {
        function: f,
        generation: 4,
        tokens: 72,
        skeleton: writer(alloc, 7)?,
    };
    let mut store = Store::new(alloc);
    if store.add(first).is_err() {
        return Err("room for the first".into());
    }
    if store.add(second).is_err() {
        return Err("room for the second".into());
    }
    assert_eq!(rt; store.bodies().len(), 2);
    let uses = store.direct(f);
    assert!(rt; uses.holds(x) && uses.holds(y) && !uses.holds(f));
    assert!(rt; !store.direct(x).holds(x));
    let flow = store.flow(alloc)?;
    assert_eq!(rt; flow.points().len(), 6);
    assert_eq!(rt; flow.ways().len(), 4);
    Ok(())
}

/// The body of a function that writes a global.
fn body(
    alloc: Global,
    function: NameId,
    generation: u32,
    global: usize,
) -> Result<StoredBody, Fail> {
    Ok(StoredBody {
        function,
        generation,
        tokens: 10,
        skeleton: writer(alloc, global)?,
    })
}

#[test]
fn bodies_added_together(rt: HostRuntime) -> Result<(), Fail> {
    let alloc = rt.alloc();
    let f = NameId::new(3).ok_or("an id")?;
    let x = NameId::new(0).ok_or("an id")?;
    let y = NameId::new(7).ok_or("an id")?;
    let mut store = Store::new(alloc);
    let first = body(alloc, f, 1, 0)?;
    if store.add(first).is_err() {
        return Err("room for the first".into());
    }
    let mut more = Vec::new(alloc);
    more.push(body(alloc, f, 2, 7)?)?;
    more.push(body(alloc, x, 2, 7)?)?;
    if !store.has_room(&more) {
        return Err("room for both".into());
    }
    store.add_all(more)?;
    assert_eq!(rt; store.bodies().len(), 3);
    assert!(rt; store.direct(f).holds(y));
    Ok(())
}

#[test]
fn bodies_taken_out_again(rt: HostRuntime) -> Result<(), Fail> {
    let alloc = rt.alloc();
    let f = NameId::new(3).ok_or("an id")?;
    let y = NameId::new(7).ok_or("an id")?;
    let mut store = Store::new(alloc);
    let mut bodies = Vec::new(alloc);
    bodies.push(body(alloc, f, 1, 0)?)?;
    bodies.push(body(alloc, f, 2, 7)?)?;
    if !store.has_room(&bodies) {
        return Err("room for both".into());
    }
    store.add_all(bodies)?;
    store.truncate(1);
    assert_eq!(rt; store.bodies().len(), 1);
    assert!(rt; !store.direct(f).holds(y));
    Ok(())
}

#[test]
fn more_check_ins_than_there_is_room_for(rt: HostRuntime) -> Result<(), Fail> {
    let alloc = rt.alloc();
    let f = NameId::new(0).ok_or("an id")?;
    let mut points = Vec::new(alloc);
    for _ in 0..=MOST_CHECK_INS {
        points.push(Point {
            kind: PointKind::CheckIn(CheckInKind::Update),
            depth: 0,
        })?;
    }
    let body = StoredBody {
        function: f,
        generation: 1,
        tokens: 1,
        skeleton: Skeleton {
            points,
            next: Vec::new(alloc),
        },
    };
    let mut store = Store::new(alloc);
    assert_eq!(rt; store.add(body), Err(StoreFault::Full));
    assert_eq!(rt; store.bodies().len(), 0);
    Ok(())
}
