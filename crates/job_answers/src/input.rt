ghost use Rattle.std.specs.Prelude.{◌≡◌, ◌⊎◌, ℕ, List, IfOk, IfErr, IsErrOf, MatchResult, OnOk};
ghost use Rattle.dsu_io.specs.Causes.{NoneFailed};
ghost use Rattle.run_types.specs.declared.run.Event.{Event as Made};
ghost use Rattle.c_tree.specs.declared.def.Program.{Program};
ghost use Rattle.dsu_report.specs.declared.fault.FaultLine.{FaultLine as Line};
ghost use Rattle.input_files.specs.Files.{IsShort};
ghost use Rattle.input_files.specs.Journals.{HoldsEvents};
ghost use Rattle.input_files.specs.Sources.{HoldsProgram, IsSource};
ghost use Rattle.job_answers.specs.Jobs.{IsJournalFault, IsKnownJournal, IsKnownProgram, IsProgramFault, KnownJournalFault, KnownProgramFault, OutOfMemory};

use c_types::Typed;
use dsu_io::Files;
use dsu_report::FaultLine;
use input_files::{Source, journal_of, source_of};
use run_types::Event;
use std::alloc::Global;

/// The text of a file and its program.
pub fn source_in<F: Files>(alloc: Global, files: &mut F, file: &str) -> Result<Source, FaultLine>
    ensures read { IfOk result (λ source. IsSource (F.content files.old file.now) source.text.items source.typed) }
    ensures fault { IfErr result (λ line. OutOfMemory (F.faults files.old) (F.faults files.new) line
        ⊎ IsProgramFault file.now (F.content files.old file.now) (F.faults files.old) (F.faults files.new) line) }
    ensures same { (other : List ℕ) → F.content files.new other ≡ F.content files.old other }
    ensures none_failed { OnOk result (NoneFailed (F.faults files.old) (F.faults files.new)) }
    ensures complete { (program : Program) → IsKnownProgram (F.content files.old file.now) program
        → MatchResult result (λ source. source.typed ≡ program) IsShort }
    ensures first { (line : Line) → KnownProgramFault (F.content files.old file.now) line
        → IsErrOf result line ⊎ IsErrOf result FaultLine.Unread ⊎ IsErrOf result FaultLine.Memory }
{
    match source_of(alloc, files, file) {
        Ok(source) => Ok(source),
        Err(line) => Err(line),
    }
}

/// The program of a file.
pub fn program_of<F: Files>(alloc: Global, files: &mut F, file: &str) -> Result<Typed, FaultLine>
    ensures read { IfOk result (λ program. HoldsProgram (F.content files.old file.now) program) }
    ensures fault { IfErr result (λ line. OutOfMemory (F.faults files.old) (F.faults files.new) line
        ⊎ IsProgramFault file.now (F.content files.old file.now) (F.faults files.old) (F.faults files.new) line) }
    ensures same { (other : List ℕ) → F.content files.new other ≡ F.content files.old other }
    ensures none_failed { OnOk result (NoneFailed (F.faults files.old) (F.faults files.new)) }
    ensures complete { (program : Program) → IsKnownProgram (F.content files.old file.now) program
        → MatchResult result (λ typed. typed ≡ program) IsShort }
    ensures first { (line : Line) → KnownProgramFault (F.content files.old file.now) line
        → IsErrOf result line ⊎ IsErrOf result FaultLine.Unread ⊎ IsErrOf result FaultLine.Memory }
{
    match source_in(alloc, files, file) {
        Ok(Source { typed, .. }) => Ok(typed),
        Err(line) => Err(line),
    }
}

/// The events of a journal's file, each with the number of its line.
pub fn events_of<F: Files>(
    alloc: Global,
    files: &mut F,
    file: &str,
) -> Result<Vec<(u32, Event)>, FaultLine>
    ensures read { IfOk result (λ lines. HoldsEvents (F.content files.old file.now) lines.items) }
    ensures fault { IfErr result (λ line. OutOfMemory (F.faults files.old) (F.faults files.new) line
        ⊎ IsJournalFault file.now (F.content files.old file.now) (F.faults files.old) (F.faults files.new) line) }
    ensures same { (other : List ℕ) → F.content files.new other ≡ F.content files.old other }
    ensures none_failed { OnOk result (NoneFailed (F.faults files.old) (F.faults files.new)) }
    ensures complete { (lines : List (ℕ × Made)) → IsKnownJournal (F.content files.old file.now) lines
        → MatchResult result (λ read. read.items ≡ lines) IsShort }
    ensures first { (line : Line) → KnownJournalFault (F.content files.old file.now) line
        → IsErrOf result line ⊎ IsErrOf result FaultLine.Unread ⊎ IsErrOf result FaultLine.Memory }
{
    match journal_of(alloc, files, file) {
        Ok(lines) => Ok(lines),
        Err(line) => Err(line),
    }
}
