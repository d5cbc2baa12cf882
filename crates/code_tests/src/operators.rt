//! Operators, conditions and conversions.
use crate::reading::has_code;
use std::test::Fail;

#[test]
fn each_operator_is_an_instruction_but_plus(rt: HostRuntime) -> Result<(), Fail> {
    let found = has_code(
        rt.alloc(),
        "int f(int a, int b) { return -a + ~b * !a - +b; }",
        "
  0 check_in entry @0
  1 load 1
  2 negate i32
  3 load 0
  4 complement i32
  5 load 1
  6 is_zero
  7 mul i32
  8 add i32
  9 load 0
 10 sub i32
 11 halt return @1
 12 constant i32 0
 13 halt return @2
",
    )?;
    assert!(rt; found);
    Ok(())
}

#[test]
fn the_right_side_of_and_and_of_or_is_jumped_over(rt: HostRuntime) -> Result<(), Fail> {
    let found = has_code(
        rt.alloc(),
        "int f(int a, int b) { return a && b || !b; }",
        "
  0 check_in entry @0
  1 load 1
  2 jump_if_zero 6
  3 load 0
  4 is_not_zero
  5 jump 7
  6 constant i32 0
  7 jump_unless_zero 12
  8 load 0
  9 is_zero
 10 is_not_zero
 11 jump 13
 12 constant i32 1
 13 halt return @1
 14 constant i32 0
 15 halt return @2
",
    )?;
    assert!(rt; found);
    Ok(())
}

#[test]
fn a_choice_has_one_of_two_values(rt: HostRuntime) -> Result<(), Fail> {
    let found = has_code(
        rt.alloc(),
        "int f(int a) { return a ? 5 : a; }",
        "
  0 check_in entry @0
  1 load 0
  2 jump_if_zero 5
  3 constant i32 5
  4 jump 6
  5 load 0
  6 halt return @1
  7 constant i32 0
  8 halt return @2
",
    )?;
    assert!(rt; found);
    Ok(())
}

/// An unsigned word is the same as a long.
#[test]
fn an_operator_works_at_the_common_kind(rt: HostRuntime) -> Result<(), Fail> {
    let found = has_code(
        rt.alloc(),
        "long f(char c, unsigned u) { return c + u; }",
        "
  0 check_in entry @0
  1 load 1
  2 load 0
  3 add u32
  4 halt return @1
  5 constant i64 0
  6 halt return @2
",
    )?;
    assert!(rt; found);
    Ok(())
}

#[test]
fn a_value_is_converted_and_a_constant_is_one_instruction(rt: HostRuntime) -> Result<(), Fail> {
    let found = has_code(
        rt.alloc(),
        "unsigned char f(int a) { if (a) return 257; return a; }",
        "
  0 check_in entry @0
  1 load 0
  2 jump_if_zero 5
  3 constant u8 1
  4 halt return @1
  5 load 0
  6 convert u8
  7 halt return @2
  8 constant u8 0
  9 halt return @3
",
    )?;
    assert!(rt; found);
    Ok(())
}
