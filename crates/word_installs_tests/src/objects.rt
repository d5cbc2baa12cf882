//! Objects of several versions.
use crate::Bench;
use crate::layouts::{added, four_structs, last_struct_again, struct_changes, swapped, zero};
use std::alloc::{AllocError, Global};
use word_layouts::WordChange;

/// Shared data without globals.
fn bench(alloc: Global) -> Result<Bench, AllocError> {
    Bench::new(alloc, Vec::new(alloc))
}

/// An object of the struct with the fields 1 and 2.
fn pair(bench: &mut Bench) -> Option<u64> {
    pair_of(bench, 0)
}

/// An object of the struct with a tag, with the fields 1 and 2.
fn pair_of(bench: &mut Bench, tag: usize) -> Option<u64> {
    let handle = bench.created(tag)?;
    if bench.set_field(handle, 0, 1) && bench.set_field(handle, 1, 2) {
        Some(handle)
    } else {
        None
    }
}

/// Installs a text that changes the struct's objects so.
fn change(bench: &mut Bench, alloc: Global, change: Option<WordChange>) -> Result<(), AllocError> {
    let changes = struct_changes(alloc, change)?;
    bench.install_layout(alloc, changes)
}

/// Whether an object has these two fields.
fn has(bench: &mut Bench, handle: u64, a: u64, b: u64) -> bool {
    bench.field(handle, 0) == Some(a) && bench.field(handle, 1) == Some(b)
}

#[test]
fn objects_of_five_versions_are_used_in_the_fifth(rt: HostRuntime) {
    let alloc = rt.alloc();
    let mut bench = bench(alloc).expect(&rt, "memory");
    let first = pair(&mut bench).expect(&rt, "room");
    change(&mut bench, alloc, swapped(alloc).expect(&rt, "memory")).expect(&rt, "memory");
    let second = pair(&mut bench).expect(&rt, "room");
    change(&mut bench, alloc, added(alloc).expect(&rt, "memory")).expect(&rt, "memory");
    let third = pair(&mut bench).expect(&rt, "room");
    change(&mut bench, alloc, None).expect(&rt, "memory");
    let fourth = pair(&mut bench).expect(&rt, "room");
    change(&mut bench, alloc, swapped(alloc).expect(&rt, "memory")).expect(&rt, "memory");
    let fifth = pair(&mut bench).expect(&rt, "room");
    assert!(rt; has(&mut bench, first, 0, 2));
    assert!(rt; has(&mut bench, second, 0, 1));
    assert!(rt; has(&mut bench, third, 2, 1));
    assert!(rt; has(&mut bench, fourth, 2, 1));
    assert!(rt; has(&mut bench, fifth, 1, 2));
    assert!(rt; has(&mut bench, first, 0, 2));
}

#[test]
fn sixty_installs_back_and_forth(rt: HostRuntime) {
    let alloc = rt.alloc();
    let mut bench = bench(alloc).expect(&rt, "memory");
    let used = pair(&mut bench).expect(&rt, "room");
    let unused = pair(&mut bench).expect(&rt, "room");
    let odd = pair(&mut bench).expect(&rt, "room");
    for n in 0..60 {
        change(&mut bench, alloc, swapped(alloc).expect(&rt, "memory")).expect(&rt, "memory");
        if n % 2 == 0 {
            assert!(rt; has(&mut bench, used, 2, 1));
        } else {
            assert!(rt; has(&mut bench, used, 1, 2));
        }
        if n == 30 {
            assert!(rt; has(&mut bench, odd, 2, 1));
        }
    }
    assert!(rt; has(&mut bench, unused, 1, 2));
    assert!(rt; has(&mut bench, odd, 1, 2));
}

#[test]
fn a_struct_that_comes_back_begins_at_zero(rt: HostRuntime) {
    let alloc = rt.alloc();
    let mut bench = bench(alloc).expect(&rt, "memory");
    let old = pair(&mut bench).expect(&rt, "room");
    change(&mut bench, alloc, None).expect(&rt, "memory");
    change(&mut bench, alloc, zero()).expect(&rt, "memory");
    let new = pair(&mut bench).expect(&rt, "room");
    assert!(rt; has(&mut bench, old, 0, 0));
    assert!(rt; has(&mut bench, new, 1, 2));
}

#[test]
fn a_write_brings_its_object(rt: HostRuntime) {
    let alloc = rt.alloc();
    let mut bench = bench(alloc).expect(&rt, "memory");
    let object = pair(&mut bench).expect(&rt, "room");
    change(&mut bench, alloc, swapped(alloc).expect(&rt, "memory")).expect(&rt, "memory");
    assert!(rt; bench.set_field(object, 0, 7));
    assert!(rt; has(&mut bench, object, 7, 1));
}

#[test]
fn an_object_of_another_struct_stays(rt: HostRuntime) {
    let alloc = rt.alloc();
    let mut bench = bench(alloc).expect(&rt, "memory");
    let other = bench.created(1).expect(&rt, "room");
    assert!(rt; bench.set_field(other, 0, 5) && bench.set_field(other, 1, 6));
    change(&mut bench, alloc, swapped(alloc).expect(&rt, "memory")).expect(&rt, "memory");
    assert!(rt; has(&mut bench, other, 5, 6));
}

#[test]
fn no_object_is_brought_for_null_or_a_stale_handle(rt: HostRuntime) {
    let alloc = rt.alloc();
    let mut bench = bench(alloc).expect(&rt, "memory");
    change(&mut bench, alloc, swapped(alloc).expect(&rt, "memory")).expect(&rt, "memory");
    assert_eq!(rt; bench.field(0, 0), None);
    assert_eq!(rt; bench.field(u64::MAX, 0), None);
}

#[test]
fn each_struct_has_its_change(rt: HostRuntime) {
    let alloc = rt.alloc();
    let mut bench = bench(alloc).expect(&rt, "memory");
    let stays = pair_of(&mut bench, 0).expect(&rt, "room");
    let changes = pair_of(&mut bench, 1).expect(&rt, "room");
    let is_new = pair_of(&mut bench, 2).expect(&rt, "room");
    let is_gone = pair_of(&mut bench, 3).expect(&rt, "room");
    let other = pair_of(&mut bench, 3).expect(&rt, "room");
    let objects = four_structs(alloc).expect(&rt, "memory");
    bench.install_layout(alloc, objects).expect(&rt, "memory");
    assert!(rt; has(&mut bench, stays, 1, 2));
    assert!(rt; has(&mut bench, changes, 2, 1));
    assert!(rt; has(&mut bench, is_new, 0, 0));
    assert!(rt; has(&mut bench, is_gone, 1, 2));
    let objects = last_struct_again(alloc).expect(&rt, "memory");
    bench.install_layout(alloc, objects).expect(&rt, "memory");
    assert!(rt; has(&mut bench, stays, 1, 2));
    assert!(rt; has(&mut bench, changes, 2, 1));
    assert!(rt; has(&mut bench, is_gone, 0, 0));
    assert!(rt; has(&mut bench, other, 0, 0));
}
