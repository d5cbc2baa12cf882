//! Why the newer text is no patch.
use c_types::Typed;
use installed_versions::{FirstFault, Installed};
use patch_build::{PatchFault, prepare};
use patch_compare::{CompareFault, compare};
use patch_faults::TransformFault;
use source_model::NotPatch;
use std::alloc::{AllocError, Global};
use type_transformers::transforms;

/// Why nothing says what changes from an older text to a newer one, if that is so.
pub(crate) fn cause_of_changes(
    alloc: Global,
    old: &Typed,
    new: &Typed,
) -> Result<Option<NotPatch>, AllocError> {
    match compare(alloc, old, new) {
        Ok(_) => cause_of_transforms(alloc, old, new),
        Err(CompareFault::Kind(name)) => Ok(Some(NotPatch::Kind(name))),
        Err(CompareFault::Memory) => Err(AllocError),
    }
}

/// The fault of the newer text's transformers, if they have one.
fn cause_of_transforms(
    alloc: Global,
    old: &Typed,
    new: &Typed,
) -> Result<Option<NotPatch>, AllocError> {
    match transforms(alloc, old, new) {
        Ok(_) => Ok(None),
        Err(
            TransformFault::NotChanged(at)
            | TransformFault::OldField(at)
            | TransformFault::Wrong(at),
        ) => Ok(Some(NotPatch::Transform(at))),
        Err(TransformFault::Memory) => Err(AllocError),
    }
}

/// Why a run of an older text can't take a newer one, if it can't at all.
pub(crate) fn cause_of_admission(
    alloc: Global,
    old: &Typed,
    new: &Typed,
) -> Result<Option<NotPatch>, AllocError> {
    let installed = match Installed::first(alloc, old) {
        Ok(installed) => installed,
        Err(FirstFault::Memory) => return Err(AllocError),
        // Each accepted text has a first version.
        Err(FirstFault::UndefinedName | FirstFault::StoreFull) => return Ok(None),
    };
    match prepare(alloc, installed.versions(old), new) {
        Ok(_) => Ok(None),
        Err(PatchFault::Not(cause)) => Ok(Some(cause)),
        // No accepted text uses such a name.
        Err(PatchFault::UndefinedName) => Ok(None),
        Err(PatchFault::Memory) => Err(AllocError),
    }
}
