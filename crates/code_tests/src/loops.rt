//! Loops, and jumps out of them and on in them.
use crate::reading::has_code;
use std::test::Fail;

#[test]
fn a_while_is_left_and_gone_on_with(rt: HostRuntime) -> Result<(), Fail> {
    let found = has_code(
        rt.alloc(),
        "int f(int i) { while (i) { if (i > 2) break; i = i - 1; continue; } return i; }",
        "
  0 check_in entry @0
  1 load 0
  2 jump_if_zero 14
  3 load 0
  4 constant i32 2
  5 gt i32
  6 jump_if_zero 8
  7 jump 14
  8 load 0
  9 constant i32 1
 10 sub i32
 11 store 0
 12 jump 13
 13 back 1 keeps 1 @1
 14 load 0
 15 halt return @2
 16 constant i32 0
 17 halt return @3
",
    )?;
    assert!(rt; found);
    Ok(())
}

#[test]
fn a_continue_in_a_do_leads_to_its_test(rt: HostRuntime) -> Result<(), Fail> {
    let found = has_code(
        rt.alloc(),
        "int f(int i) { do { if (i) continue; break; } while (i < 3); return i; }",
        "
  0 check_in entry @0
  1 load 0
  2 jump_if_zero 4
  3 jump 5
  4 jump 10
  5 load 0
  6 constant i32 3
  7 lt i32
  8 jump_if_zero 10
  9 back 1 keeps 1 @1
 10 load 0
 11 halt return @2
 12 constant i32 0
 13 halt return @3
",
    )?;
    assert!(rt; found);
    Ok(())
}

#[test]
fn a_continue_in_a_for_leads_to_its_step(rt: HostRuntime) -> Result<(), Fail> {
    let found = has_code(
        rt.alloc(),
        "int g; int f(void) { for (int i = 0; i < 3; i++) { if (g) continue; g = i; } return 0; }",
        "
  0 check_in entry @0
  1 constant i32 0
  2 store 0
  3 constant i32 0
  4 store 0
  5 load 0
  6 constant i32 3
  7 lt i32
  8 jump_if_zero 20
  9 halt read_global g @1
 10 jump_if_zero 12
 11 jump 15
 12 load 0
 13 halt write_global g @2
 14 drop
 15 load 0
 16 constant i32 1
 17 add i32
 18 store 0
 19 back 5 keeps 1 @3
 20 constant i32 0
 21 halt return @4
 22 constant i32 0
 23 halt return @5
",
    )?;
    assert!(rt; found);
    Ok(())
}

#[test]
fn a_jump_leaves_the_nearest_loop(rt: HostRuntime) -> Result<(), Fail> {
    let found = has_code(
        rt.alloc(),
        "void f(int n) { while (1) { while (n) { if (n) break; continue; } break; } }",
        "
  0 check_in entry @0
  1 constant i32 1
  2 jump_if_zero 12
  3 load 0
  4 jump_if_zero 10
  5 load 0
  6 jump_if_zero 8
  7 jump 10
  8 jump 9
  9 back 3 keeps 1 @1
 10 jump 12
 11 back 1 keeps 1 @2
 12 constant i32 0
 13 halt return @3
",
    )?;
    assert!(rt; found);
    Ok(())
}

#[test]
fn a_for_may_have_no_test(rt: HostRuntime) -> Result<(), Fail> {
    let found = has_code(
        rt.alloc(),
        "int f(int n) { for (;;) { dsu_tx { n = 1; } break; } return n; }",
        "
  0 check_in entry @0
  1 halt begin @1
  2 check_in begin @2
  3 constant i32 1
  4 store 0
  5 halt end @3
  6 check_in end @4
  7 jump 9
  8 back 1 keeps 1 @5
  9 load 0
 10 halt return @6
 11 constant i32 0
 12 halt return @7
",
    )?;
    assert!(rt; found);
    Ok(())
}
