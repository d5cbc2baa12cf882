//! An expression alone, whose value stays or is dropped.
use crate::reading::{has_effect, has_value};
use std::test::Fail;

#[test]
fn a_stored_value_stays_where_it_is_used(rt: HostRuntime) -> Result<(), Fail> {
    let found = has_value(
        rt.alloc(),
        "int g; void f(int a) { a = g; }",
        "
  0 halt read_global g @7
  1 copy
  2 store 0
",
    )?;
    assert!(rt; found);
    Ok(())
}

#[test]
fn a_stored_value_is_not_kept_besides(rt: HostRuntime) -> Result<(), Fail> {
    let found = has_effect(
        rt.alloc(),
        "int g; void f(int a) { a = g; }",
        "
  0 halt read_global g @7
  1 store 0
",
    )?;
    assert!(rt; found);
    Ok(())
}
