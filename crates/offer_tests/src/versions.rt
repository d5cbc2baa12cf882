//! What patches bring over three versions.
use crate::texts::{FIRST, Row, SECOND, first_of, has_bodies, has_names, read};
use c_types::Typed;
use dsu_io::Boxed;
use name_sets::{NameSet, Names};
use patch_build::{Patch, Versions, prepare};
use std::alloc::Global;
use std::test::Fail;

/// A function is gone, and another has one parameter more.
const THIRD: &str = "struct s { int a; int b; };
struct s *p;
int g;
int f(int n, int m) { g = n; return m; }
int main(void) { f(1, 2); return 0; }
";

/// What a patch brings.
struct Brings {
    changed: &'static [&'static str],
    interface: &'static [&'static str],
    bodies: &'static [Row],
}

/// What the second version brings after the first.
static BY_SECOND: Brings = Brings {
    changed: &["f", "struct s"],
    interface: &["struct s"],
    bodies: &[Row("h", 2), Row("f", 2)],
};

/// What the third version brings after the second.
static BY_THIRD: Brings = Brings {
    changed: &["f", "h", "main"],
    interface: &["f", "h"],
    bodies: &[Row("f", 3), Row("main", 3)],
};

/// Whether a set has these names of the table, and no others.
fn has_ids(names: &Names, set: &NameSet, texts: &[&str]) -> bool {
    let mut expected = NameSet::empty();
    for text in texts {
        let Some(id) = names.find(text) else {
            return false;
        };
        expected.add(id);
    }
    *set == expected
}

fn is_as(patch: &Patch, brings: &Brings) -> bool {
    has_names(&patch.names, 6)
        && has_ids(&patch.names, &patch.changed, brings.changed)
        && has_ids(&patch.names, &patch.interface, brings.interface)
        && has_bodies(&patch.names, &patch.bodies, brings.bodies)
}

/// The patch of a text that follows some versions.
fn patch_of(alloc: Global, versions: Versions<'_>, new: &Typed) -> Result<Boxed<Patch>, Fail> {
    match prepare(alloc, versions, new) {
        Ok(patch) => Ok(Boxed::of(alloc, patch)?),
        Err(_) => Err(Fail::new("it is no patch")),
    }
}

/// Whether the third version is the patch that it should be, after the second.
fn third_is_patch(alloc: Global, versions: Versions<'_>) -> Result<bool, Fail> {
    let third = read(alloc, THIRD)?;
    let patch = patch_of(alloc, versions, third.get())?;
    Ok(is_as(patch.get(), &BY_THIRD))
}

/// Whether the second version is the patch that it should be, and the third after it.
fn both_are_patches(alloc: Global, first: &Typed, second: &Typed) -> Result<bool, Fail> {
    let installed = Boxed::of(alloc, first_of(alloc, first)?)?;
    let before = installed.get().versions(first);
    let patch = patch_of(alloc, before, second)?;
    let versions = Versions {
        count: 2,
        names: &patch.get().names,
        store: before.store,
        last: second,
    };
    Ok(is_as(patch.get(), &BY_SECOND) && third_is_patch(alloc, versions)?)
}

#[test]
fn three_versions(rt: HostRuntime) -> Result<(), Fail> {
    let first = read(rt.alloc(), FIRST)?;
    let second = read(rt.alloc(), SECOND)?;
    assert!(rt; both_are_patches(rt.alloc(), first.get(), second.get())?);
    Ok(())
}
