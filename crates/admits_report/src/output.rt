//! The whole text.
ghost use Rattle.std.specs.Prelude.{◌≡◌, ◌≤◌, [], ◌∷◌, map, IfOk, IsErrOf};
ghost use Rattle.c_front.specs.Accepted.{Accepted};
ghost use Rattle.c_tree.specs.Bare.{bare_def};
ghost use Rattle.c_semantics.specs.SourceTexts.{text_of as text_of_program};
ghost use Rattle.c_semantics.specs.Store.{store};
ghost use Rattle.code_store.specs.Stored.{IsStoreOf};
ghost use Rattle.brought_bodies.specs.Unknown.{HasUnknownFunction};
ghost use Rattle.installed_versions.specs.Firsts.{IsFirstFault};
ghost use Rattle.installed_versions.specs.Installed.{IsInstalled};
ghost use Rattle.installed_versions.specs.declared.fault.FirstFault.{FirstFault as Fault};
ghost use Rattle.con_freeness.specs.Rows.{Names as Texts};
ghost use Rattle.con_freeness.specs.Decisions.{IsListOf};
ghost use Rattle.dsu_io.specs.Causes.{Rose};
ghost use Rattle.admits_report.specs.AdmitsText.{IsAdmitsText, IsPatchText};
ghost use Rattle.admits_report.specs.Answered.{IsSectionsText};
ghost use Rattle.admits_report.specs.Writing.{Writes};

use crate::admission::Admission;
use crate::answers::answers;
use crate::counts::counts_of;
use crate::lines::{add_counts, add_functions};
use crate::refused::text_of_fault;
use crate::tested::admission_of;
use c_tree::Program;
use c_types::Typed;
use check_in_places::{Lines, Section, bodies_of};
use dsu_io::{Sink, put};
use dsu_report::ReportFault;
use installed_versions::{FirstFault, Installed, accepted_programs_start};
use patch_build::{Patch, Versions, prepare};
use std::alloc::{AllocError, Global};

/// Writes where a run of an older accepted text could take a newer one. `old_text` and `new_text` have the bytes of the texts.
///
/// `Memory` is also the answer where the older text has more points than numbers of 32 bits, or more check-ins and functions than
/// there are numbers of rows.
pub fn write_admission<S: Sink>(
    alloc: Global,
    old: &Typed,
    old_text: &[u8],
    new: &Typed,
    new_text: &[u8],
    sink: &mut S,
) -> Result<(), ReportFault>
    requires old { Accepted old_text.now old.now }
    requires new { Accepted new_text.now new.now }
    ensures bytes { Writes (IsAdmitsText old.now old_text.now new.now new_text.now)
        (S.told sink.old) (S.told sink.new) result }
    ensures later { S.faults sink.old ≤ S.faults sink.new }
    ensures failed { IsErrOf result ReportFault.Failed → Rose (S.faults sink.old) (S.faults sink.new) }
    ensures memory { IsErrOf result ReportFault.Memory → sink.new ≡ sink.old }
{
    let Ok(text) = text_of(alloc, old, old_text, new, new_text) else {
        return Err(ReportFault::Memory);
    };
    match put(sink, &text) {
        Ok(()) => Ok(()),
        Err(_) => Err(ReportFault::Failed),
    }
}

/// The whole text.
fn text_of(
    alloc: Global,
    old: &Typed,
    old_text: &[u8],
    new: &Typed,
    new_text: &[u8],
) -> Result<Vec<u8>, AllocError>
    requires old { Accepted old_text.now old.now }
    requires new { Accepted new_text.now new.now }
    ensures { IfOk result (λ text. IsAdmitsText old.now old_text.now new.now new_text.now text.items) }
{
    accepted_programs_start();
    let installed = first_version(alloc, old)?;
    let versions = installed.versions(old);
    match prepare(alloc, versions, new) {
        Ok(patch) => text_of_patch(alloc, old.program(), old_text, versions, &patch),
        Err(fault) => text_of_fault(alloc, &fault, new_text),
    }
}

/// The first version of a text that has one, unless memory runs out.
fn first_version(alloc: Global, text: &Typed) -> Result<Installed, AllocError>
    requires { (fault : Fault) → IsFirstFault text.now fault → fault ≡ FirstFault.Memory }
    ensures { IfOk result (λ i. IsInstalled (text_of_program text.now ∷ []) i.count i.names i.store) }
{
    match Installed::first(alloc, text) {
        Ok(installed) => Ok(installed),
        Err(FirstFault::Memory) => Err(AllocError),
        Err(FirstFault::UndefinedName | FirstFault::StoreFull) => unreachable!(),
    }
}

/// The text of a patch, where the program is the only version.
fn text_of_patch(
    alloc: Global,
    program: &Program,
    text: &[u8],
    versions: Versions<'_>,
    patch: &Patch,
) -> Result<Vec<u8>, AllocError>
    requires { ¬ HasUnknownFunction versions.names.now (map bare_def program.now.definitions) }
    ensures { (changed interface : Texts)
        → IsStoreOf versions.entry.names.now (store (text_of_program program.now ∷ [])) versions.entry.store.now
        → IsListOf versions.entry.names.now patch.now.changed changed
        → IsListOf versions.entry.names.now patch.now.interface interface
        → IfOk result (λ output. IsPatchText program.now text.now changed interface output.items) }
{
    let _names = versions.names.len();
    let bodies = bodies_of(alloc, program, versions.names)?;
    let admission = admission_of(alloc, versions, patch)?;
    let lines = Lines::of(alloc, text)?;
    text_of_sections(alloc, &admission, &lines, bodies.sections.as_slice())
}

/// The text of functions.
fn text_of_sections(
    alloc: Global,
    admission: &Admission<'_>,
    lines: &Lines<'_>,
    sections: &[Section],
) -> Result<Vec<u8>, AllocError>
    ensures { IfOk result (λ output. IsSectionsText admission.now lines.now.text.now sections.now output.items) }
{
    let functions = answers(alloc, admission, sections)?;
    let counts = counts_of(functions.as_slice());
    let mut text = Vec::new(alloc);
    add_functions(&mut text, lines, admission.names, functions.as_slice())?;
    add_counts(&mut text, counts)?;
    Ok(text)
}
