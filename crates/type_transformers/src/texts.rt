//! The changes of all names.
ghost use Rattle.std.specs.Prelude.{◌≡◌, ◌⊎◌, map, All, None, Some, IfOk, IfErr, string_bytes};
ghost use Rattle.c_tree.specs.Bare.{bare_def};
ghost use Rattle.patch_faults.specs.TransformFaults.{first_transform_fault};
ghost use Rattle.type_transformers.specs.Changes.{changing, name_of, IsChange};
ghost use Rattle.type_transformers.specs.Made.{AreChanges};

use crate::change::{Change, add_change};
use crate::newer::Newer;
use c_definitions::Known;
use c_tree::Def;
use c_types::Typed;
use patch_faults::TransformFault;
use sorted_names::names_in_order;
use std::alloc::{AllocError, Global};
use transformer_types::first_fault;

/// How old data becomes that of a newer text, in the order of the names' bytes. It is refused with the first fault of the
/// newer text's transformers, if they have one, and fails otherwise only when out of memory.
pub fn transforms(alloc: Global, old: &Typed, new: &Typed) -> Result<Vec<Change>, TransformFault>
    ensures faultless { IfOk result (λ changes. first_transform_fault old.now.definitions new.now.definitions ≡ None) }
    ensures names { let p = map bare_def old.now.definitions in let q = map bare_def new.now.definitions in
        IfOk result (λ changes. map name_of changes.items ≡ changing p q) }
    ensures changes { let p = map bare_def old.now.definitions in let q = map bare_def new.now.definitions in
        IfOk result (λ changes. All (IsChange p q) changes.items) }
    ensures fault { IfErr result (λ fault. (fault ≡ TransformFault.Memory)
        ⊎ (first_transform_fault old.now.definitions new.now.definitions ≡ Some fault)) }
{
    match first_fault(alloc, old, new) {
        Ok(None) => changes(alloc, old, new),
        Ok(Some(fault)) => Err(fault),
        Err(_) => Err(TransformFault::Memory),
    }
}

/// The changes, whatever the transformers' types are.
fn changes(alloc: Global, old: &Typed, new: &Typed) -> Result<Vec<Change>, TransformFault>
    ensures names { let p = map bare_def old.now.definitions in let q = map bare_def new.now.definitions in
        IfOk result (λ changes. map name_of changes.items ≡ changing p q) }
    ensures changes { let p = map bare_def old.now.definitions in let q = map bare_def new.now.definitions in
        IfOk result (λ changes. All (IsChange p q) changes.items) }
    ensures fault { IfErr result (λ fault. fault ≡ TransformFault.Memory) }
{
    let Ok(changes) = changes_of_all(alloc, old, new) else {
        return Err(TransformFault::Memory);
    };
    Ok(changes)
}

/// The changes of all names of the older text.
fn changes_of_all(alloc: Global, old: &Typed, new: &Typed) -> Result<Vec<Change>, AllocError>
    ensures names { let p = map bare_def old.now.definitions in let q = map bare_def new.now.definitions in
        IfOk result (λ changes. map name_of changes.items ≡ changing p q) }
    ensures changes { let p = map bare_def old.now.definitions in let q = map bare_def new.now.definitions in
        IfOk result (λ changes. All (IsChange p q) changes.items) }
{
    let definitions = old.program().definitions.as_slice();
    let names = names_in_order(alloc, definitions)?;
    changes_named(alloc, names.as_slice(), definitions, new)
}

/// Those of some names, by the definitions of the older text.
fn changes_named(
    alloc: Global,
    names: &[String],
    old: &[Def],
    new: &Typed,
) -> Result<Vec<Change>, AllocError>
    ensures { IfOk result (λ changes. AreChanges (map bare_def old.now) (map bare_def new.now.definitions) (map string_bytes names.now) changes.items) }
{
    let known = Known::of(alloc, old)?;
    changes_after(alloc, names, &known, new)
}

/// Those of some names, by the table of the older text.
fn changes_after(
    alloc: Global,
    names: &[String],
    old: &Known,
    new: &Typed,
) -> Result<Vec<Change>, AllocError>
    ensures { IfOk result (λ changes. AreChanges (map bare_def old.now) (map bare_def new.now.definitions) (map string_bytes names.now) changes.items) }
{
    let newer = Newer::of(alloc, new)?;
    changes_among(alloc, names, old, &newer)
}

/// Those of some names, by the tables of both texts.
fn changes_among(
    alloc: Global,
    names: &[String],
    old: &Known,
    new: &Newer,
) -> Result<Vec<Change>, AllocError>
    ensures { IfOk result (λ changes. AreChanges (map bare_def old.now) (map bare_def new.now) (map string_bytes names.now) changes.items) }
{
    let mut changes = Vec::new(alloc);
    for name in names {
        add_change(alloc, old, new, name.as_str(), &mut changes)?;
    }
    Ok(changes)
}
