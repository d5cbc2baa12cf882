//! Statements other than loops.
use crate::reading::has_code;
use std::test::Fail;

#[test]
fn a_function_begins_with_its_entry_and_ends_with_a_return(rt: HostRuntime) -> Result<(), Fail> {
    let found = has_code(
        rt.alloc(),
        "int f(int i) { return i; }",
        "
  0 check_in entry @0
  1 load 0
  2 halt return @1
  3 constant i32 0
  4 halt return @2
",
    )?;
    assert!(rt; found);
    Ok(())
}

/// The last parameter is variable 0; `d` and `e` have one number.
#[test]
fn a_variable_of_a_block_gives_its_number_back(rt: HostRuntime) -> Result<(), Fail> {
    let found = has_code(
        rt.alloc(),
        "int f(int a, int b) { int c = a; ; { int d = b; c = d; } int e; return e; }",
        "
  0 check_in entry @0
  1 constant i32 0
  2 store 2
  3 load 1
  4 store 2
  5 constant i32 0
  6 store 3
  7 load 0
  8 store 3
  9 load 3
 10 store 2
 11 constant i32 0
 12 store 3
 13 load 3
 14 halt return @1
 15 constant i32 0
 16 halt return @2
",
    )?;
    assert!(rt; found);
    Ok(())
}

#[test]
fn an_if_jumps_past_what_it_leaves_out(rt: HostRuntime) -> Result<(), Fail> {
    let found = has_code(
        rt.alloc(),
        "int f(int i) { if (!i) i = 1; if (i) i = 2; else i = 3; return i; }",
        "
  0 check_in entry @0
  1 load 0
  2 jump_unless_zero 5
  3 constant i32 1
  4 store 0
  5 load 0
  6 jump_if_zero 10
  7 constant i32 2
  8 store 0
  9 jump 12
 10 constant i32 3
 11 store 0
 12 load 0
 13 halt return @1
 14 constant i32 0
 15 halt return @2
",
    )?;
    assert!(rt; found);
    Ok(())
}

#[test]
fn a_transaction_has_its_stops_and_check_ins(rt: HostRuntime) -> Result<(), Fail> {
    let found = has_code(
        rt.alloc(),
        "int f(void) { dsu_tx { dsu_update(); } return 0; }",
        "
  0 check_in entry @0
  1 halt begin @1
  2 check_in begin @2
  3 halt update @3
  4 check_in update @4
  5 halt end @5
  6 check_in end @6
  7 constant i32 0
  8 halt return @7
  9 constant i32 0
 10 halt return @8
",
    )?;
    assert!(rt; found);
    Ok(())
}
