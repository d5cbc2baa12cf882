//! Copies of versions, and an offer that is prepared on them.
use crate::installs::install;
use crate::texts::{FIRST, SECOND, first_of, read};
use c_front::read_text;
use c_types::Typed;
use code_store::Store;
use installed_versions::Installed;
use name_sets::Names;
use offer_preparations::Preparation;
use std::alloc::Global;
use std::sync::Arc;
use std::test::Fail;
use version_copies::{copy_names, copy_store, same_names, same_store};

/// Whether versions have these names, and whether they have these bodies.
fn compared(names: &Names, store: &Store, installed: &Installed) -> (bool, bool) {
    (
        same_names(names, installed.names()),
        same_store(store, installed.store()),
    )
}

/// Whether copies are the same at first, not after an install, and again once it is taken back.
fn are_told_apart(
    alloc: Global,
    installed: &mut Installed,
    first: &Typed,
    second: &Typed,
) -> Result<bool, Fail> {
    let names = copy_names(alloc, installed.names())?;
    let store = copy_store(alloc, installed.store())?;
    let at_first = compared(&names, &store, installed);
    let replaced = install(alloc, installed, first, second)?;
    let after = compared(&names, &store, installed);
    installed.take_back(replaced);
    let taken_back = compared(&names, &store, installed);
    Ok(at_first == (true, true) && after == (false, false) && taken_back == (true, true))
}

/// The texts of a run: one that begins, and one that is offered.
fn both(alloc: Global) -> Result<Arc<Vec<Typed>, Global>, Fail> {
    let mut texts = Vec::new(alloc);
    for text in [FIRST, SECOND] {
        let Ok(typed) = read_text(alloc, text.as_bytes()) else {
            return Err(Fail::new("the text has a fault"));
        };
        texts.push(typed)?;
    }
    Ok(Arc::new(alloc, texts)?)
}

/// Whether an offer that is prepared after the first of both texts fits an offer after some versions, which have the last text.
fn fits(
    alloc: Global,
    before: &Installed,
    k: u8,
    last: usize,
    installed: &Installed,
) -> Result<bool, Fail> {
    let texts = both(alloc)?;
    let mut preparation = Preparation::of(alloc, 1, 0, texts, before)?;
    preparation.prepare();
    Ok(preparation.fitting(k, last, installed).is_some())
}

/// Whether it fits the same offer after the same versions, and no other.
fn fits_its_own(alloc: Global, first: &Typed, second: &Typed) -> Result<bool, Fail> {
    let before = first_of(alloc, first)?;
    let mut later = first_of(alloc, first)?;
    let own = fits(alloc, &before, 1, 0, &later)?;
    let other_offer = fits(alloc, &before, 2, 0, &later)?;
    let other_last = fits(alloc, &before, 1, 1, &later)?;
    drop(install(alloc, &mut later, first, second)?);
    let after = fits(alloc, &before, 1, 0, &later)?;
    Ok(own && !other_offer && !other_last && !after)
}

/// Whether nothing fits before it was prepared.
fn is_nothing_at_first(alloc: Global, first: &Typed) -> Result<bool, Fail> {
    let installed = first_of(alloc, first)?;
    let preparation = Preparation::of(alloc, 1, 0, both(alloc)?, &installed)?;
    Ok(preparation.fitting(1, 0, &installed).is_none())
}

#[test]
fn copies_are_told_apart(rt: HostRuntime) -> Result<(), Fail> {
    let first = read(rt.alloc(), FIRST)?;
    let second = read(rt.alloc(), SECOND)?;
    let mut installed = first_of(rt.alloc(), first.get())?;
    assert!(rt; are_told_apart(rt.alloc(), &mut installed, first.get(), second.get())?);
    Ok(())
}

#[test]
fn a_preparation_fits_its_own_offer(rt: HostRuntime) -> Result<(), Fail> {
    let first = read(rt.alloc(), FIRST)?;
    let second = read(rt.alloc(), SECOND)?;
    assert!(rt; fits_its_own(rt.alloc(), first.get(), second.get())?);
    assert!(rt; is_nothing_at_first(rt.alloc(), first.get())?);
    Ok(())
}
