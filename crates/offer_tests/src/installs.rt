//! An install that is taken back and made anew.
use crate::texts::{FIRST, Row, SECOND, first_of, has_bodies, has_names, read};
use c_types::Typed;
use installed_versions::{Installed, Replaced};
use patch_build::{MOST_VERSIONS, Versions, prepare};
use std::alloc::Global;
use std::test::Fail;

/// The bodies of the first version.
static OF_FIRST: [Row; 2] = [Row("f", 1), Row("main", 1)];

/// The bodies of both versions, in the order in which they were brought.
static OF_BOTH: [Row; 4] = [Row("f", 1), Row("main", 1), Row("h", 2), Row("f", 2)];

/// Whether versions are so many, with so many names and these bodies.
fn are(versions: Versions<'_>, count: u32, names: usize, rows: &[Row]) -> bool {
    versions.count == count
        && has_names(versions.names, names)
        && has_bodies(versions.names, versions.store.bodies(), rows)
}

/// Installs a text after the last one.
pub(crate) fn install(
    alloc: Global,
    installed: &mut Installed,
    last: &Typed,
    new: &Typed,
) -> Result<Replaced, Fail> {
    if installed.count() >= MOST_VERSIONS {
        return Err(Fail::new("there are too many versions"));
    }
    let Ok(patch) = prepare(alloc, installed.versions(last), new) else {
        return Err(Fail::new("it is no patch"));
    };
    Ok(installed.install(patch.names, patch.bodies)?)
}

/// Whether the versions are right at first, after an install, once it is taken back, and after another install.
fn are_right(
    alloc: Global,
    installed: &mut Installed,
    first: &Typed,
    second: &Typed,
) -> Result<bool, Fail> {
    let at_first = are(installed.versions(first), 1, 5, &OF_FIRST);
    let replaced = install(alloc, installed, first, second)?;
    let after = are(installed.versions(second), 2, 6, &OF_BOTH);
    installed.take_back(replaced);
    let taken_back = are(installed.versions(first), 1, 5, &OF_FIRST);
    drop(install(alloc, installed, first, second)?);
    let anew = are(installed.versions(second), 2, 6, &OF_BOTH);
    Ok(at_first && after && taken_back && anew)
}

/// Whether they are for two texts.
fn is_right(alloc: Global, first: &Typed, second: &Typed) -> Result<bool, Fail> {
    let mut installed = first_of(alloc, first)?;
    let answer = are_right(alloc, &mut installed, first, second);
    drop(installed);
    answer
}

#[test]
fn taken_back_and_anew(rt: HostRuntime) -> Result<(), Fail> {
    let first = read(rt.alloc(), FIRST)?;
    let second = read(rt.alloc(), SECOND)?;
    assert!(rt; is_right(rt.alloc(), first.get(), second.get())?);
    Ok(())
}
