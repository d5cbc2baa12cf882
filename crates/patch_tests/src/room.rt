//! The room of a store that is nearly full, for one body of one check-in and 15 tokens.
use code_store::{MOST_CHECK_INS, MOST_FUNCTION_TOKENS, Store, StoredBody};
use dsu_io::{Boxed, List};
use name_sets::NameId;
use skeletons::{CheckInKind, Point, PointKind, Skeleton};
use std::alloc::Global;
use std::test::Fail;

/// A body of so many check-ins and tokens.
fn body(
    alloc: Global,
    function: usize,
    check_ins: usize,
    tokens: usize,
) -> Result<StoredBody, Fail> {
    let function = NameId::new(function).ok_or("an id")?;
    let Ok(tokens) = u32::try_from(tokens) else {
        return Err(Fail::new("too many tokens"));
    };
    let point = Point {
        kind: PointKind::CheckIn(CheckInKind::Update),
        depth: 0,
    };
    let mut points = Vec::new(alloc);
    points.resize(check_ins, point)?;
    let next: Vec<List<u32>> = Vec::new(alloc);
    Ok(StoredBody {
        function,
        generation: 1,
        tokens,
        skeleton: Skeleton { points, next },
    })
}

/// A store with one body of so many check-ins and tokens.
fn store_of(alloc: Global, check_ins: usize, tokens: usize) -> Result<Boxed<Store>, Fail> {
    let body = body(alloc, 0, check_ins, tokens)?;
    let mut store = Store::new(alloc);
    let added = store.add(body).is_ok();
    let store = Boxed::of(alloc, store)?;
    if !added {
        return Err(Fail::new("there is no room for the first"));
    }
    Ok(store)
}

/// Whether a store with one body has room for the other.
fn has_room_beside(alloc: Global, check_ins: usize, tokens: usize) -> Result<bool, Fail> {
    let store = store_of(alloc, check_ins, tokens)?;
    let mut more = Vec::new(alloc);
    more.push(body(alloc, 1, 1, 15)?)?;
    Ok(store.get().has_room(&more))
}

#[test]
fn the_last_check_in(rt: HostRuntime) -> Result<(), Fail> {
    let alloc = rt.alloc();
    assert!(rt; has_room_beside(alloc, MOST_CHECK_INS - 1, 100)?);
    assert!(rt; !has_room_beside(alloc, MOST_CHECK_INS, 100)?);
    Ok(())
}

#[test]
fn the_last_tokens(rt: HostRuntime) -> Result<(), Fail> {
    let alloc = rt.alloc();
    assert!(rt; has_room_beside(alloc, 1, MOST_FUNCTION_TOKENS - 15)?);
    assert!(rt; !has_room_beside(alloc, 1, MOST_FUNCTION_TOKENS - 14)?);
    Ok(())
}

#[test]
fn a_full_store_has_room_for_nothing(rt: HostRuntime) -> Result<(), Fail> {
    let store = store_of(rt.alloc(), MOST_CHECK_INS, MOST_FUNCTION_TOKENS)?;
    assert!(rt; store.get().has_room(&[]));
    Ok(())
}
