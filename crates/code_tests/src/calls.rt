//! Calls, objects, threads and mutexes.
use crate::reading::has_code;
use std::test::Fail;

#[test]
fn a_call_ends_with_a_check_in(rt: HostRuntime) -> Result<(), Fail> {
    let found = has_code(
        rt.alloc(),
        "int h(int a, int b) { return a; } int f(int x) { return h(x, 2) + 1; }",
        "
  0 check_in entry @0
  1 load 0
  2 constant i32 2
  3 halt call h 2 @1
  4 check_in call @2
  5 constant i32 1
  6 add i32
  7 halt return @3
  8 constant i32 0
  9 halt return @4
",
    )?;
    assert!(rt; found);
    Ok(())
}

#[test]
fn objects_are_made_and_freed_and_values_printed(rt: HostRuntime) -> Result<(), Fail> {
    let found = has_code(
        rt.alloc(),
        "struct s { int v; }; int f(void) { struct s *p = calloc(1, sizeof(struct s)); free(p); printf(\"%d\\n\", 3); return 0; }",
        "
  0 check_in entry @0
  1 constant handle 0
  2 store 0
  3 halt new s @1
  4 store 0
  5 load 0
  6 halt free s @2
  7 drop
  8 constant i32 3
  9 halt print \"%d\\n\" 1 @3
 10 drop
 11 constant i32 0
 12 halt return @4
 13 constant i32 0
 14 halt return @5
",
    )?;
    assert!(rt; found);
    Ok(())
}

#[test]
fn a_thread_is_made_and_joined(rt: HostRuntime) -> Result<(), Fail> {
    let found = has_code(
        rt.alloc(),
        "int w(int a) { return a; } int f(void) { thrd_t t; int r; thrd_create(&t, w, 7); thrd_join(t, &r); return thrd_join(t, NULL); }",
        "
  0 check_in entry @0
  1 constant thread 0
  2 store 0
  3 constant i32 0
  4 store 1
  5 constant i32 7
  6 halt spawn w @1
  7 copy
  8 store 0
  9 is_zero
 10 drop
 11 load 0
 12 halt join @2
 13 store 1
 14 constant i32 0
 15 drop
 16 load 0
 17 halt join @3
 18 drop
 19 constant i32 0
 20 halt return @4
 21 constant i32 0
 22 halt return @5
",
    )?;
    assert!(rt; found);
    Ok(())
}

#[test]
fn a_joined_value_is_stored_after_the_stop(rt: HostRuntime) -> Result<(), Fail> {
    let found = has_code(
        rt.alloc(),
        "thrd_t t; int a[2]; int w(int a) { return a; } int f(int i) { thrd_create(&t, w, i); return thrd_join(t, &a[i]); }",
        "
  0 check_in entry @0
  1 load 0
  2 halt spawn w @1
  3 halt write_global t @2
  4 is_zero
  5 drop
  6 halt read_global t @3
  7 load 0
  8 swap
  9 halt join @4
 10 halt write_element a @5
 11 drop
 12 constant i32 0
 13 halt return @6
 14 constant i32 0
 15 halt return @7
",
    )?;
    assert!(rt; found);
    Ok(())
}

#[test]
fn a_mutex_is_used_at_stops(rt: HostRuntime) -> Result<(), Fail> {
    let found = has_code(
        rt.alloc(),
        "mtx_t m; int f(void) { mtx_init(&m, mtx_plain); mtx_lock(&m); return mtx_unlock(&m); }",
        "
  0 check_in entry @0
  1 halt init_mutex m @1
  2 drop
  3 halt lock m @2
  4 drop
  5 halt unlock m @3
  6 halt return @4
  7 constant i32 0
  8 halt return @5
",
    )?;
    assert!(rt; found);
    Ok(())
}
