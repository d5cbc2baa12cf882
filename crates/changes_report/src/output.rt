//! The whole text.
ghost use Rattle.std.specs.Prelude.{◌≡◌, ◌≤◌, ◌++◌, IfOk, IsErr, IsErrOf, OnOk, map};
ghost use Rattle.std.specs.List.{flat_map};
ghost use Rattle.c_tree.specs.Bare.{bare_def};
ghost use Rattle.dsu_io.specs.Causes.{Rose};
ghost use Rattle.patch_faults.specs.TransformFaults.{place_of};
ghost use Rattle.changes_report.specs.ChangesText.{changes_text, fault_text, text_by_fault};
ghost use Rattle.changes_report.specs.Shown.{AreChanges, change_text, lists_text};
ghost use Rattle.changes_report.specs.Writing.{Writes};

use crate::lines::add_names;
use crate::refused::{fault_text, kind_text};
use crate::transforms::add_changes;
use c_definitions::Known;
use c_tree::Program;
use c_types::Typed;
use dsu_io::{Sink, put};
use dsu_report::ReportFault;
use patch_compare::{Changes, CompareFault, compare};
use patch_faults::TransformFault;
use std::alloc::{AllocError, Global};
use type_transformers::{Change, transforms};

/// Writes what changes from one typed text to another. `new_text` has the bytes of the newer one.
pub fn write_changes<S: Sink>(
    alloc: Global,
    old: &Typed,
    new: &Typed,
    new_text: &[u8],
    sink: &mut S,
) -> Result<(), ReportFault>
    ensures bytes { Writes (changes_text old.now.definitions new.now.definitions new_text.now)
        (S.told sink.old) (S.told sink.new) result }
    ensures later { S.faults sink.old ≤ S.faults sink.new }
    ensures failed { IsErrOf result ReportFault.Failed → Rose (S.faults sink.old) (S.faults sink.new) }
    ensures memory { IsErrOf result ReportFault.Memory → sink.new ≡ sink.old }
{
    let Ok(text) = text_of(alloc, old, new, new_text) else {
        return Err(ReportFault::Memory);
    };
    match put(sink, &text) {
        Ok(()) => Ok(()),
        Err(_) => Err(ReportFault::Failed),
    }
}

/// The whole text.
fn text_of(alloc: Global, old: &Typed, new: &Typed, new_text: &[u8]) -> Result<Vec<u8>, AllocError>
    ensures { IfOk result (λ text. text.items ≡ changes_text old.now.definitions new.now.definitions new_text.now) }
{
    match compare(alloc, old, new) {
        Ok(changes) => text_of_changes(alloc, old, new, new_text, &changes),
        Err(CompareFault::Kind(name)) => kind_text(alloc, name.as_str()),
        Err(CompareFault::Memory) => Err(AllocError),
    }
}

/// The text where each name is of the same sort.
fn text_of_changes(
    alloc: Global,
    old: &Typed,
    new: &Typed,
    new_text: &[u8],
    changes: &Changes,
) -> Result<Vec<u8>, AllocError>
    ensures { AreChanges (map bare_def old.now.definitions) (map bare_def new.now.definitions) changes.now
        → IfOk result (λ text. text.items ≡ text_by_fault old.now.definitions new.now.definitions new_text.now) }
{
    match transforms(alloc, old, new) {
        Ok(transforms) => text_of_patch(alloc, new.program(), changes, transforms.as_slice()),
        Err(fault) => text_of_fault(alloc, fault, new_text),
    }
}

/// The text of a patch.
fn text_of_patch(
    alloc: Global,
    new: &Program,
    changes: &Changes,
    transforms: &[Change],
) -> Result<Vec<u8>, AllocError>
    ensures { IfOk result (λ text. text.items ≡ lists_text changes.now
        ++ flat_map (change_text (map bare_def new.now.definitions)) transforms.now) }
{
    let known = Known::of(alloc, new.definitions.as_slice())?;
    text_among(alloc, &known, changes, transforms)
}

/// The text of a patch whose definitions are known.
fn text_among(
    alloc: Global,
    new: &Known,
    changes: &Changes,
    transforms: &[Change],
) -> Result<Vec<u8>, AllocError>
    ensures { IfOk result (λ text. text.items ≡ lists_text changes.now
        ++ flat_map (change_text (map bare_def new.now)) transforms.now) }
{
    let mut text = Vec::new(alloc);
    add_lists(&mut text, changes)?;
    add_changes(alloc, &mut text, new, transforms)?;
    Ok(text)
}

/// Adds the lines of the names.
fn add_lists(text: &mut Vec<u8>, changes: &Changes) -> Result<(), AllocError>
    ensures { OnOk result (text.new.items ≡ text.old.items ++ lists_text changes.now) }
{
    add_names(text, b"changed", changes.changed.as_slice())?;
    add_names(text, b"interface", changes.interface.as_slice())?;
    add_names(text, b"added", changes.added.as_slice())
}

/// The text of a fault of a transformer.
fn text_of_fault(
    alloc: Global,
    fault: TransformFault,
    new_text: &[u8],
) -> Result<Vec<u8>, AllocError>
    ensures line { IfOk result (λ text. text.items ≡ fault_text new_text.now (place_of fault)) }
    ensures memory { fault ≡ TransformFault.Memory → IsErr result }
{
    match fault {
        TransformFault::NotChanged(at) => fault_text(alloc, new_text, at),
        TransformFault::OldField(at) => fault_text(alloc, new_text, at),
        TransformFault::Wrong(at) => fault_text(alloc, new_text, at),
        TransformFault::Memory => Err(AllocError),
    }
}
