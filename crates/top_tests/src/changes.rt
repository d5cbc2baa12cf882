//! The text of pairs of small texts, and sinks that fail.
use crate::fixtures::{sink_of, typed_of};
use c_types::Typed;
use changes_report::write_changes;
use dsu_io::MemorySink;
use dsu_report::ReportFault;
use std::alloc::{AllocError, Global};
use std::process::Abort;

/// An older text, a newer one, and what is written.
type Row = (&'static str, &'static str, &'static str);

/// Names of each kind that change, that are gone and that are added.
static NAMES: [Row; 6] = [
    (
        "int g; int main(void) { return g; }",
        "int g = 1; int main(void) { return g; }",
        "",
    ),
    (
        "int f(int a) { return 0; } int main(void) { return 0; }",
        "int f(int b) { return 0; } int main(void) { return 1; }",
        "changed f\nchanged main\n",
    ),
    (
        "int f(int a) { return 0; } int main(void) { return 0; }",
        "long f(int a) { return 0; } int main(void) { return 0; }",
        "changed f\ninterface f\n",
    ),
    (
        "int g; mtx_t m; struct s { int a; }; int f(void) { return 0; } int a[2]; int main(void) { return 0; }",
        "int main(void) { return 0; }",
        "changed a\nchanged f\nchanged g\nchanged m\nchanged struct s\n\
        interface a\ninterface f\ninterface g\ninterface m\ninterface struct s\n",
    ),
    (
        "int main(void) { return 0; }",
        "int g; mtx_t m; struct s { int a; }; int f(void) { return 0; } int a[2]; int main(void) { return 0; }",
        "added a\nadded f\nadded g\nadded m\nadded struct s\n",
    ),
    (
        "int z; int y; int main(void) { return 0; }",
        "int b; long y; int main(void) { return 0; }",
        "changed y\nchanged z\ninterface y\ninterface z\nadded b\ntransform y zero\n",
    ),
];

/// Fields that are copied and zero.
const FIELDS: Row = (
    "struct p { int a; long b; int c; }; int main(void) { return 0; }",
    "struct p { int b; int a; long d; }; int main(void) { return 0; }",
    "changed struct p\ninterface struct p\n\
    transform struct p b zero\ntransform struct p a copied\ntransform struct p d zero\n",
);

/// Fields and globals: copied, zero and given.
static VALUES: [Row; 6] = [
    FIELDS,
    (
        "struct p { int a; long b; int c; }; int main(void) { return 0; }",
        "struct p { int a; int b; int c; int d; }; int main(void) { return 0; } \
        dsu_transform struct p { b = (int) old.b; a = old.c; }",
        "changed struct p\ninterface struct p\ntransform struct p a given\n\
        transform struct p b given\ntransform struct p c copied\ntransform struct p d zero\n",
    ),
    (
        "struct a { int x; }; struct b { int x; }; struct c { struct a *p; thrd_t t; }; struct a *p; int main(void) { return 0; }",
        "struct a { int x; }; struct b { int x; }; struct c { thrd_t t; struct b *p; }; struct b *p; int main(void) { return 0; }",
        "changed p\nchanged struct c\ninterface p\ninterface struct c\n\
        transform p zero\ntransform struct c t copied\ntransform struct c p zero\n",
    ),
    (
        "int x; int y; int main(void) { return 0; }",
        "long x; long y; int main(void) { return 0; } dsu_transform x = old;",
        "changed x\nchanged y\ninterface x\ninterface y\ntransform x given\ntransform y zero\n",
    ),
    (
        "int a[4]; int b[4]; int c[4]; int main(void) { return 0; }",
        "int a[6]; int b[2]; long c[4]; int main(void) { return 0; }",
        "changed a\nchanged b\nchanged c\ninterface a\ninterface b\ninterface c\n\
        transform a copied\ntransform b copied\ntransform c zero\n",
    ),
    (
        "int a[4]; int s; int main(void) { return 0; }",
        "int a; int s[3]; int main(void) { return 0; }",
        "changed a\nchanged s\ninterface a\ninterface s\ntransform a zero\ntransform s zero\n",
    ),
];

/// Pairs of which the newer text is no patch.
static REFUSED: [Row; 7] = [
    (
        "int g; int main(void) { return 0; }",
        "mtx_t g; int main(void) { return 0; }",
        "not a patch: kind g\n",
    ),
    (
        "int z; mtx_t h; int main(void) { return 0; }",
        "mtx_t z; int h(void) { return 0; } int main(void) { return 0; }",
        "not a patch: kind h\n",
    ),
    (
        "int g; int main(void) { return 0; }",
        "int g; int main(void) { return 0; }\n dsu_transform g = 1;",
        "not a patch: transform 2:2\n",
    ),
    (
        "struct s { int a; }; int main(void) { return 0; }",
        "struct s { int a; int b; }; int main(void) { return 0; }\ndsu_transform struct s { b = old.c; }",
        "not a patch: transform 2:34\n",
    ),
    (
        "struct s { int a; }; int main(void) { return 0; }",
        "struct s { int a; int b; }; int main(void) { return 0; }\ndsu_transform struct s { b = NULL; }",
        "not a patch: transform 2:30\n",
    ),
    (
        "int g; int x; int main(void) { return 0; }",
        "int g; long x; int main(void) { return 0; }\ndsu_transform x = NULL;\ndsu_transform g = 1;",
        "not a patch: transform 2:19\n",
    ),
    (
        "int g; int x; int main(void) { return 0; }",
        "mtx_t g; int x; int main(void) { return 0; }\ndsu_transform x = 1;",
        "not a patch: kind g\n",
    ),
];

/// Writes the changes from a tree to a newer text, and says how the call ended.
fn write_from(
    alloc: Global,
    old: &Typed,
    new: &str,
    sink: &mut MemorySink,
) -> Option<Result<(), ReportFault>> {
    let typed = typed_of(alloc, new)?;
    let ended = write_changes(alloc, old, &typed, new.as_bytes(), sink);
    drop(typed);
    Some(ended)
}

/// The same of two texts.
fn write(
    alloc: Global,
    old: &str,
    new: &str,
    sink: &mut MemorySink,
) -> Option<Result<(), ReportFault>> {
    let typed = typed_of(alloc, old)?;
    let ended = write_from(alloc, &typed, new, sink);
    drop(typed);
    ended
}

/// Whether the text of a pair is written whole.
fn is_written(alloc: Global, row: &Row) -> Option<bool> {
    let (old, new, text) = *row;
    let mut sink = sink_of(alloc, 1000, &[]).ok()?;
    let ended = write(alloc, old, new, &mut sink)?;
    Some(ended.is_ok() && sink.bytes() == text.as_bytes())
}

/// Stops the test at the first pair of which something else is written.
fn are_written(rt: &impl Abort, alloc: Global, rows: &[Row]) {
    for (place, row) in rows.iter().enumerate() {
        assert!(rt; is_written(alloc, row) == Some(true), "row {place}");
    }
}

#[test]
fn names_that_change(rt: HostRuntime) {
    are_written(&rt, rt.alloc(), &NAMES);
}

#[test]
fn values_that_change(rt: HostRuntime) {
    are_written(&rt, rt.alloc(), &VALUES);
}

#[test]
fn texts_that_are_no_patch(rt: HostRuntime) {
    are_written(&rt, rt.alloc(), &REFUSED);
}

#[test]
fn a_call_of_the_sink_fails(rt: HostRuntime) -> Result<(), AllocError> {
    let (old, new, _) = FIELDS;
    let mut sink = sink_of(rt.alloc(), 1000, &[1])?;
    let ended = write(rt.alloc(), old, new, &mut sink);
    assert!(rt; ended == Some(Err(ReportFault::Failed)));
    assert!(rt; sink.bytes().is_empty());
    Ok(())
}

/// Room that ends in each group of lines.
static ROOMS: [usize; 4] = [3, 20, 60, 100];

#[test]
fn the_sink_is_full(rt: HostRuntime) -> Result<(), AllocError> {
    let (old, new, text) = FIELDS;
    for room in &ROOMS {
        let mut sink = sink_of(rt.alloc(), *room, &[])?;
        let ended = write(rt.alloc(), old, new, &mut sink);
        assert!(rt; ended == Some(Err(ReportFault::Failed)), "{room}");
        assert!(rt; sink.bytes().len() == *room, "{room}");
        assert!(rt; text.as_bytes().starts_with(sink.bytes()), "{room}");
    }
    Ok(())
}
