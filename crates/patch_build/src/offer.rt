//! The whole.
ghost use Rattle.std.specs.Prelude.{◌≡◌, suc, false, None, List, [], ◌∷◌, ◌++◌, map, All, IfOk, IfErr, IsErrOf};
ghost use Rattle.c_tree.specs.BareExpr.{Bytes};
ghost use Rattle.c_tree.specs.Bare.{bare_def};
ghost use Rattle.c_semantics.specs.Changes.{changed, interface};
ghost use Rattle.c_semantics.specs.SourceTexts.{text_of};
ghost use Rattle.c_semantics.specs.Store.{brought_bodies, store};
ghost use Rattle.source_model.specs.Patches.{all_names, last_definitions, not_patch};
ghost use Rattle.brought_bodies.specs.Sets.{IsSetOf};
ghost use Rattle.brought_bodies.specs.Undefined.{HasUndefinedUse};
ghost use Rattle.code_store.specs.Limits.{are_too_many};
ghost use Rattle.code_store.specs.Stored.{meant_body, IsNewTo, IsStoreOf};
ghost use Rattle.type_transformers.specs.Changes.{changing, name_of, IsChange};
ghost use Rattle.patch_build.specs.Faults.{IsCause};
ghost use Rattle.patch_build.specs.Versions.{ForVersions, IsTableOf, Extends};

use crate::fault::PatchFault;
use crate::patch::{MOST_VERSIONS, Patch, Versions};
use crate::sets::ids_of;
use crate::table::with_names_of;
use brought_bodies::brought;
use c_types::Typed;
use patch_compare::compare;
use source_model::NotPatch;
use std::alloc::Global;
use type_transformers::transforms;

/// What is needed to install a text after the versions so far, or the first cause for which it isn't a patch.
///
/// `UndefinedName` comes only where a function of the text uses a name that the text doesn't define. No accepted text has such a
/// function (the law `each_use_is_defined` of `typed_uses`).
pub fn prepare(alloc: Global, versions: Versions<'_>, new: &Typed) -> Result<Patch, PatchFault>
    ensures fault { IfErr result (λ fault. ForVersions versions.entry (λ texts.
        IsCause (not_patch (store texts) texts (text_of new.now)) fault)) }
    ensures undefined { IsErrOf result PatchFault.UndefinedName → HasUndefinedUse (map bare_def new.now.definitions) }
    ensures patch { IfOk result (λ patch. ForVersions versions.entry (λ texts.
        not_patch (store texts) texts (text_of new.now) ≡ None)) }
    ensures names { IfOk result (λ patch. ForVersions versions.entry (λ texts.
        IsTableOf (all_names (texts ++ text_of new.now ∷ [])) patch.names)) }
    ensures ids { IfOk result (λ patch. Extends versions.entry.names.now patch.names) }
    ensures changed { IfOk result (λ patch. ForVersions versions.entry (λ texts.
        IsSetOf patch.names patch.changed (changed (last_definitions texts) (text_of new.now).definitions))) }
    ensures interface { IfOk result (λ patch. ForVersions versions.entry (λ texts.
        IsSetOf patch.names patch.interface (interface (last_definitions texts) (text_of new.now).definitions))) }
    ensures bodies { IfOk result (λ patch. ForVersions versions.entry (λ texts.
        map (meant_body patch.names) patch.bodies.items
        ≡ brought_bodies (suc versions.entry.count) (last_definitions texts) (text_of new.now))) }
    ensures new { IfOk result (λ patch. ForVersions versions.entry (λ texts.
        All (λ body. IsNewTo versions.entry.store.now body.function body.generation) patch.bodies.items)) }
    ensures room { IfOk result (λ patch. (names : List Bytes) → are_too_many
        (map (meant_body names) versions.entry.store.now ++ map (meant_body names) patch.bodies.items) ≡ false) }
    ensures store { IfOk result (λ patch. ForVersions versions.entry (λ texts.
        IsStoreOf patch.names (store (texts ++ text_of new.now ∷ [])) (versions.entry.store.now ++ patch.bodies.items))) }
    ensures changing { let p = map bare_def versions.entry.last.now.definitions in let q = map bare_def new.now.definitions in
        IfOk result (λ patch. map name_of patch.transforms.items ≡ changing p q) }
    ensures transforms { let p = map bare_def versions.entry.last.now.definitions in let q = map bare_def new.now.definitions in
        IfOk result (λ patch. All (IsChange p q) patch.transforms.items) }
{
    if versions.count >= MOST_VERSIONS {
        return Err(PatchFault::Not(NotPatch::Versions));
    }
    let names = with_names_of(alloc, versions.names, new)?;
    let changes = compare(alloc, versions.last, new)?;
    let transforms = transforms(alloc, versions.last, new)?;
    let changed = ids_of(&names, changes.changed.as_slice());
    let interface = ids_of(&names, changes.interface.as_slice());
    let bodies = brought(
        alloc,
        versions.count + 1,
        &names,
        &changed,
        &interface,
        versions.last,
        new,
    )?;
    if !versions.store.has_room(&bodies) {
        return Err(PatchFault::Not(NotPatch::StoreFull));
    }
    Ok(Patch {
        names,
        changed,
        interface,
        bodies,
        transforms,
    })
}
