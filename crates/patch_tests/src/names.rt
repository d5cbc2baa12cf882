//! Which names change, and how they say that they do.
use crate::pairs::changes;
use crate::texts::read_with_main;
use patch_faults::TransformFault;
use std::test::Fail;
use type_transformers::{Change, GlobalChange, transforms};
use versioned_structs::FieldChange;

const OLD: &str = "struct b { int x; };
struct same { int x; };
int gone;
int same;
int c[2];
int a;
int d;
mtx_t m;
int f(int n) { return n; }";

const NEW: &str = "struct same { int x; };
struct b { int y; long z; int x; };
int same = 1;
int c[3];
long a;
int d[1];
mtx_t m;
long f(long n) { return n; }
int added;
dsu_transform a = old;
dsu_transform struct b { z = old.x; }";

#[test]
fn names_come_in_the_order_of_their_bytes(rt: HostRuntime) -> Result<(), Fail> {
    let changes = changes(rt.alloc(), OLD, NEW)?;
    let [
        Change::Global(a, GlobalChange::Given(_, _)),
        Change::Global(c, GlobalChange::Copied(3, _)),
        Change::Global(d, GlobalChange::Zero(1, _)),
        Change::Struct(b, fields),
    ] = changes.as_slice()
    else {
        return Err(Fail::new("other names"));
    };
    assert!(rt; a.as_str() == "a" && c.as_str() == "c");
    assert!(rt; d.as_str() == "d" && b.as_str() == "b");
    let [
        FieldChange::Zero(_),
        FieldChange::Given(_, _),
        FieldChange::Copied(0),
    ] = fields.as_slice()
    else {
        return Err(Fail::new("other fields"));
    };
    Ok(())
}

#[test]
fn the_same_text_changes_nothing(rt: HostRuntime) -> Result<(), Fail> {
    let changes = changes(rt.alloc(), OLD, OLD)?;
    assert!(rt; changes.is_empty());
    Ok(())
}

#[test]
fn a_transformer_of_what_stays_is_refused(rt: HostRuntime) -> Result<(), Fail> {
    let alloc = rt.alloc();
    let old = read_with_main(alloc, "int g;")?;
    let new = read_with_main(alloc, "int g; dsu_transform g = old;")?;
    let refused = transforms(alloc, old.get(), new.get());
    assert!(rt; matches!(refused, Err(TransformFault::NotChanged(7))));
    Ok(())
}
