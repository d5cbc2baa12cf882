//! Globals, arrays and mutexes.
use crate::Bench;
use c_ints::Kind;
use constant_values::ValueKind;
use dsu_io::Text;
use std::alloc::{AllocError, Global};
use type_transformers::{Change, GlobalChange};
use versioned_structs::{Formula, FormulaNode};
use word_data::SharedStop;
use word_installs::TextRow;
use word_layouts::VersionChanges;

const INT: ValueKind = ValueKind::Number(Kind::I32);

const UNSIGNED: ValueKind = ValueKind::Number(Kind::U32);

/// A row of a name with these first words.
fn row(
    alloc: Global,
    name: &str,
    kind: ValueKind,
    first: &[u64],
) -> Result<Option<TextRow>, AllocError> {
    Ok(Some(TextRow {
        name: Text::of(alloc, name)?,
        kind,
        first: Vec::from_slice(alloc, first)?,
    }))
}

/// `int a = -1; int b[3] = {1, 2, 3}; int c = 4;`
fn first_text(alloc: Global) -> Result<Vec<Option<TextRow>>, AllocError> {
    let mut rows = Vec::new(alloc);
    rows.push(row(alloc, "a", INT, &[u64::MAX])?)?;
    rows.push(row(alloc, "b", INT, &[1, 2, 3])?)?;
    rows.push(row(alloc, "c", INT, &[4])?)?;
    rows.push(None)?;
    Ok(rows)
}

/// `unsigned a; int b[4]; int d = 9;` with `a` from its old value.
fn second_text(alloc: Global) -> Result<Vec<Option<TextRow>>, AllocError> {
    let mut rows = Vec::new(alloc);
    rows.push(row(alloc, "a", UNSIGNED, &[0])?)?;
    rows.push(row(alloc, "b", INT, &[0, 0, 0, 0])?)?;
    rows.push(None)?;
    rows.push(row(alloc, "d", INT, &[9])?)?;
    Ok(rows)
}

/// What changes between them.
fn changes(alloc: Global) -> Result<Vec<Change>, AllocError> {
    let old = Formula {
        node: FormulaNode::Old(0),
    };
    let mut changes = Vec::new(alloc);
    let a = GlobalChange::Given(UNSIGNED, old);
    changes.push(Change::Global(Text::of(alloc, "a")?, a))?;
    let b = GlobalChange::Copied(4, INT);
    changes.push(Change::Global(Text::of(alloc, "b")?, b))?;
    Ok(changes)
}

/// An install of the second text after the first, and what is shared then; mutex 1 is gone.
fn installed(alloc: Global, bench: &mut Bench) -> Result<(), AllocError> {
    let changes = changes(alloc)?;
    let none = VersionChanges {
        structs: Vec::new(alloc),
    };
    let text = second_text(alloc)?;
    bench.install(alloc, text, changes.as_slice(), none, &[1])
}

#[test]
fn globals_change_at_once(rt: HostRuntime) {
    let alloc = rt.alloc();
    let text = first_text(alloc).expect(&rt, "memory");
    let mut bench = Bench::new(alloc, text).expect(&rt, "memory");
    assert_eq!(rt; bench.make(SharedStop::WriteGlobal(2), &[8]), Some(8));
    installed(alloc, &mut bench).expect(&rt, "memory");
    assert!(rt; bench.has_row(0, &[0xffff_ffff]));
    assert!(rt; bench.has_row(1, &[1, 2, 3, 0]));
    assert!(rt; bench.has_row(2, &[8]));
    assert!(rt; bench.has_row(3, &[9]));
}

#[test]
fn a_name_that_comes_back_begins_anew(rt: HostRuntime) {
    let alloc = rt.alloc();
    let text = first_text(alloc).expect(&rt, "memory");
    let mut bench = Bench::new(alloc, text).expect(&rt, "memory");
    assert_eq!(rt; bench.make(SharedStop::WriteGlobal(2), &[8]), Some(8));
    installed(alloc, &mut bench).expect(&rt, "memory");
    let text = first_text(alloc).expect(&rt, "memory");
    let none = VersionChanges {
        structs: Vec::new(alloc),
    };
    bench
        .install(alloc, text, &[], none, &[])
        .expect(&rt, "memory");
    assert!(rt; bench.has_row(2, &[4]));
    assert!(rt; bench.has_row(0, &[0xffff_ffff]));
}

#[test]
fn a_mutex_that_is_gone_is_held_by_nobody(rt: HostRuntime) {
    let alloc = rt.alloc();
    let text = first_text(alloc).expect(&rt, "memory");
    let mut bench = Bench::new(alloc, text).expect(&rt, "memory");
    assert_eq!(rt; bench.make(SharedStop::Lock(0), &[]), Some(0));
    assert_eq!(rt; bench.make(SharedStop::Lock(1), &[]), Some(0));
    installed(alloc, &mut bench).expect(&rt, "memory");
    assert_eq!(rt; bench.holder(0), Some(0));
    assert_eq!(rt; bench.holder(1), None);
}
