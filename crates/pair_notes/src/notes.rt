//! The notes.
ghost use Rattle.std.specs.Prelude.{IfOk};
ghost use Rattle.fault_notes.specs.Notes.{AreNotes};

use crate::causes::{cause_of_admission, cause_of_changes};
use offer_drafts::SourceText;
use patch_notes::add_no_patch_notes;
use source_model::NotPatch;
use std::alloc::{AllocError, Global};

/// The older text is that of the first version.
const FIRST: u32 = 1;

/// Why nothing says what changes from an older text to a newer one; nothing where something does.
pub fn change_notes(
    alloc: Global,
    mark: &[u8],
    old: &SourceText<'_>,
    new: &SourceText<'_>,
) -> Result<Vec<u8>, AllocError>
    ensures { IfOk result (λ notes. AreNotes mark.now notes.items) }
{
    let cause = cause_of_changes(alloc, old.typed, new.typed)?;
    notes_of(alloc, mark, old, new, &cause)
}

/// Why a run of an older text can't take a newer one; nothing where it can at some place or where its rows refuse it.
pub fn admission_notes(
    alloc: Global,
    mark: &[u8],
    old: &SourceText<'_>,
    new: &SourceText<'_>,
) -> Result<Vec<u8>, AllocError>
    ensures { IfOk result (λ notes. AreNotes mark.now notes.items) }
{
    let cause = cause_of_admission(alloc, old.typed, new.typed)?;
    notes_of(alloc, mark, old, new, &cause)
}

/// The notes on a cause, if there is one.
fn notes_of(
    alloc: Global,
    mark: &[u8],
    old: &SourceText<'_>,
    new: &SourceText<'_>,
    cause: &Option<NotPatch>,
) -> Result<Vec<u8>, AllocError>
    ensures { IfOk result (λ notes. AreNotes mark.now notes.items) }
{
    let mut notes = Vec::new(alloc);
    if let Some(cause) = cause {
        add_no_patch_notes(alloc, mark, FIRST, old, new, cause, &mut notes)?;
    }
    Ok(notes)
}
