//! Variables, globals, elements and fields.
use crate::reading::has_code;
use std::test::Fail;

#[test]
fn a_narrow_variable_is_converted_after_each_step(rt: HostRuntime) -> Result<(), Fail> {
    let found = has_code(
        rt.alloc(),
        "char f(char c) { c += 300; ++c; c++; return c++; }",
        "
  0 check_in entry @0
  1 load 0
  2 constant i32 300
  3 add i32
  4 convert i8
  5 store 0
  6 load 0
  7 constant i32 1
  8 add i32
  9 convert i8
 10 store 0
 11 load 0
 12 constant i32 1
 13 add i32
 14 convert i8
 15 store 0
 16 load 0
 17 copy
 18 constant i32 1
 19 add i32
 20 convert i8
 21 store 0
 22 halt return @1
 23 constant i8 0
 24 halt return @2
",
    )?;
    assert!(rt; found);
    Ok(())
}

#[test]
fn an_assignment_whose_value_is_used_copies_it(rt: HostRuntime) -> Result<(), Fail> {
    let found = has_code(
        rt.alloc(),
        "int f(int a, int b) { return a = b -= a; }",
        "
  0 check_in entry @0
  1 load 0
  2 load 1
  3 sub i32
  4 copy
  5 store 0
  6 copy
  7 store 1
  8 halt return @1
  9 constant i32 0
 10 halt return @2
",
    )?;
    assert!(rt; found);
    Ok(())
}

#[test]
fn a_global_is_read_and_written_at_stops(rt: HostRuntime) -> Result<(), Fail> {
    let found = has_code(
        rt.alloc(),
        "int g; int f(int a) { g = a; g += 2; g--; return g; }",
        "
  0 check_in entry @0
  1 load 0
  2 halt write_global g @1
  3 drop
  4 halt read_global g @2
  5 constant i32 2
  6 add i32
  7 halt write_global g @3
  8 drop
  9 halt read_global g @4
 10 copy
 11 constant i32 1
 12 sub i32
 13 halt write_global g @5
 14 drop
 15 drop
 16 halt read_global g @6
 17 halt return @7
 18 constant i32 0
 19 halt return @8
",
    )?;
    assert!(rt; found);
    Ok(())
}

#[test]
fn the_index_of_an_element_is_evaluated_once(rt: HostRuntime) -> Result<(), Fail> {
    let found = has_code(
        rt.alloc(),
        "int a[4]; int f(int i) { a[i] = 1; a[i] += 2; a[i]++; return a[i]; }",
        "
  0 check_in entry @0
  1 load 0
  2 constant i32 1
  3 halt write_element a @1
  4 drop
  5 load 0
  6 copy
  7 halt read_element a @2
  8 constant i32 2
  9 add i32
 10 halt write_element a @3
 11 drop
 12 load 0
 13 copy
 14 halt read_element a @4
 15 copy_under
 16 constant i32 1
 17 add i32
 18 halt write_element a @5
 19 drop
 20 drop
 21 load 0
 22 halt read_element a @6
 23 halt return @7
 24 constant i32 0
 25 halt return @8
",
    )?;
    assert!(rt; found);
    Ok(())
}

#[test]
fn a_field_is_reached_by_its_handle(rt: HostRuntime) -> Result<(), Fail> {
    let found = has_code(
        rt.alloc(),
        "struct s { int v; struct s *n; }; int f(struct s *p) { p->v = 1; return p->n->v; }",
        "
  0 check_in entry @0
  1 load 0
  2 constant i32 1
  3 halt write_field s.v @1
  4 drop
  5 load 0
  6 halt read_field s.n @2
  7 halt read_field s.v @3
  8 halt return @4
  9 constant i32 0
 10 halt return @5
",
    )?;
    assert!(rt; found);
    Ok(())
}

#[test]
fn handles_are_compared_as_words(rt: HostRuntime) -> Result<(), Fail> {
    let found = has_code(
        rt.alloc(),
        "struct s { int v; }; struct s *f(struct s *p) { if (p != NULL) return p; return NULL; }",
        "
  0 check_in entry @0
  1 load 0
  2 constant handle 0
  3 different
  4 jump_if_zero 7
  5 load 0
  6 halt return @1
  7 constant handle 0
  8 halt return @2
  9 constant handle 0
 10 halt return @3
",
    )?;
    assert!(rt; found);
    Ok(())
}
