//! The names that change between two texts.
ghost use Rattle.std.specs.Prelude.{◌≡◌, ◌++◌, [], ◌∷◌, map, Some, None, IfOk, IfErr, OnOk, option_copied, string_bytes, if◌then◌else◌};
ghost use Rattle.c_tree.specs.Bare.{bare_def};
ghost use Rattle.name_sets.specs.NameLists.{name_set};
ghost use Rattle.c_semantics.specs.Changes.{added, changed, interface};
ghost use Rattle.c_semantics.specs.Texts.{names};
ghost use Rattle.patch_faults.specs.Sorts.{other_kind};
ghost use Rattle.patch_compare.specs.Extents.{differing};
ghost use Rattle.patch_compare.specs.Faults.{IsAnswer, IsFault};

use crate::answer::{Changes, CompareFault};
use crate::lookup::{Extent, agree, has_other_sort, is_defined};
use c_definitions::Known;
use c_tree::Def;
use c_types::Typed;
use dsu_io::{List, Text};
use sorted_names::names_in_order;
use std::alloc::{AllocError, Global};

/// Compares a newer text with an older one.
pub fn compare(alloc: Global, old: &Typed, new: &Typed) -> Result<Changes, CompareFault>
    ensures changed { IfOk result (λ c. c.changed ≡ changed (map bare_def old.now.definitions) (map bare_def new.now.definitions)) }
    ensures interface { IfOk result (λ c. c.interface ≡ interface (map bare_def old.now.definitions) (map bare_def new.now.definitions)) }
    ensures added { IfOk result (λ c. c.added ≡ added (map bare_def old.now.definitions) (map bare_def new.now.definitions)) }
    ensures sorts { IfOk result (λ c. other_kind (map bare_def old.now.definitions) (map bare_def new.now.definitions) ≡ None) }
    ensures fault { IfErr result (IsFault (other_kind (map bare_def old.now.definitions) (map bare_def new.now.definitions))) }
{
    let earlier = old.program().definitions.as_slice();
    let later = new.program().definitions.as_slice();
    compare_definitions(alloc, earlier, later)
}

/// Compares the definitions of two texts. Each table is owned by a function of its own, which lends it on.
fn compare_definitions(alloc: Global, old: &[Def], new: &[Def]) -> Result<Changes, CompareFault>
    ensures { IsAnswer (map bare_def old.now) (map bare_def new.now) result }
{
    let Ok(known) = Known::of(alloc, old) else {
        return Err(CompareFault::Memory);
    };
    let answer = compare_with(alloc, old, &known, new);
    drop(known);
    answer
}

/// Compares a newer text with an older one that has a table.
fn compare_with(
    alloc: Global,
    old: &[Def],
    old_known: &Known,
    new: &[Def],
) -> Result<Changes, CompareFault>
    requires { old_known.now ≡ old.now }
    ensures { IsAnswer (map bare_def old.now) (map bare_def new.now) result }
{
    let Ok(known) = Known::of(alloc, new) else {
        return Err(CompareFault::Memory);
    };
    let answer = compare_known(alloc, old, new, old_known, &known);
    drop(known);
    answer
}

/// Compares two texts that have tables.
fn compare_known(
    alloc: Global,
    old: &[Def],
    new: &[Def],
    old_known: &Known,
    new_known: &Known,
) -> Result<Changes, CompareFault>
    requires old { old_known.now ≡ old.now }
    requires new { new_known.now ≡ new.now }
    ensures { IsAnswer (map bare_def old.now) (map bare_def new.now) result }
{
    let Ok(old_names) = names_in_order(alloc, old) else {
        return Err(CompareFault::Memory);
    };
    let Ok(new_names) = names_in_order(alloc, new) else {
        return Err(CompareFault::Memory);
    };
    compare_names(
        alloc,
        old_names.as_slice(),
        new_names.as_slice(),
        old_known,
        new_known,
    )
}

/// Compares two texts, given their names in the order of bytes.
fn compare_names(
    alloc: Global,
    old_names: &[String],
    new_names: &[String],
    old: &Known,
    new: &Known,
) -> Result<Changes, CompareFault>
    requires old { map string_bytes old_names.now ≡ name_set (names (map bare_def old.now)) }
    requires new { map string_bytes new_names.now ≡ name_set (names (map bare_def new.now)) }
    ensures { IsAnswer (map bare_def old.now) (map bare_def new.now) result }
{
    if let Some(name) = first_of_other_sort(old_names, old, new) {
        return Err(kind_fault(alloc, name));
    }
    match changes(alloc, old_names, new_names, old, new) {
        Ok(changes) => Ok(changes),
        Err(_) => Err(CompareFault::Memory),
    }
}

/// The fault that names a name.
fn kind_fault(alloc: Global, name: &str) -> CompareFault
    ensures { IsFault (Some name.now) result }
{
    match Text::of(alloc, name) {
        Ok(text) => CompareFault::Kind(text),
        Err(_) => CompareFault::Memory,
    }
}

/// The first of the names of the older text that the texts define as different sorts.
fn first_of_other_sort<'a>(candidates: &'a [String], old: &Known, new: &Known) -> Option<&'a str>
    requires { map string_bytes candidates.now ≡ name_set (names (map bare_def old.now)) }
    ensures { option_copied result ≡ other_kind (map bare_def old.now) (map bare_def new.now) }
{
    for text in candidates {
        let name = text.as_str();
        if has_other_sort(name, old, new) {
            return Some(name);
        }
    }
    None
}

/// The three lists, of the names of both texts.
fn changes(
    alloc: Global,
    old_names: &[String],
    new_names: &[String],
    old: &Known,
    new: &Known,
) -> Result<Changes, AllocError>
    requires old { map string_bytes old_names.now ≡ name_set (names (map bare_def old.now)) }
    requires new { map string_bytes new_names.now ≡ name_set (names (map bare_def new.now)) }
    ensures changed { IfOk result (λ c. c.changed ≡ changed (map bare_def old.now) (map bare_def new.now)) }
    ensures interface { IfOk result (λ c. c.interface ≡ interface (map bare_def old.now) (map bare_def new.now)) }
    ensures added { IfOk result (λ c. c.added ≡ added (map bare_def old.now) (map bare_def new.now)) }
{
    Ok(Changes {
        changed: differing(alloc, Extent::Whole, old_names, old, new)?,
        interface: differing(alloc, Extent::Interface, old_names, old, new)?,
        added: added(alloc, new_names, old, new)?,
    })
}

/// Those of the names of the older text on which the texts don't agree.
fn differing(
    alloc: Global,
    extent: Extent,
    candidates: &[String],
    old: &Known,
    new: &Known,
) -> Result<List<Text>, AllocError>
    requires { map string_bytes candidates.now ≡ name_set (names (map bare_def old.now)) }
    ensures { IfOk result (λ list. list ≡ differing extent (map bare_def old.now) (map bare_def new.now)) }
{
    let mut differing = Vec::new(alloc);
    for text in candidates {
        let name = text.as_str();
        let differs = !agree(extent, name, old, new);
        add_if(alloc, differs, name, &mut differing)?;
    }
    Ok(List::of(differing))
}

/// Those of the names of the newer text that the older one doesn't define.
fn added(
    alloc: Global,
    candidates: &[String],
    old: &Known,
    new: &Known,
) -> Result<List<Text>, AllocError>
    requires { map string_bytes candidates.now ≡ name_set (names (map bare_def new.now)) }
    ensures { IfOk result (λ list. list ≡ added (map bare_def old.now) (map bare_def new.now)) }
{
    let mut added = Vec::new(alloc);
    for text in candidates {
        let name = text.as_str();
        let is_new = !is_defined(old, name);
        add_if(alloc, is_new, name, &mut added)?;
    }
    Ok(List::of(added))
}

/// Adds a copy of a name, if it is one of those that are listed.
fn add_if(alloc: Global, listed: bool, name: &str, list: &mut Vec<Text>) -> Result<(), AllocError>
    ensures { OnOk result (list.new.items ≡ list.old.items ++ (if listed then name.now ∷ [] else [])) }
{
    if listed {
        list.push(Text::of(alloc, name)?)?;
    }
    Ok(())
}
