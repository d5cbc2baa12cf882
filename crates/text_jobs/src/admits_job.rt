ghost use Rattle.std.specs.Prelude.{◌⊎◌, ℕ, List, []};
ghost use Rattle.c_tree.specs.declared.def.Program.{Program};
ghost use Rattle.c_front.specs.Accepted.{Accepted};
ghost use Rattle.dsu_cli.specs.declared.job.Job.TheVariants.{Admits};
ghost use Rattle.dsu_report.specs.declared.fault.FaultLine.{FaultLine as Line};
ghost use Rattle.job_answers.specs.Answers.{AdmitsFailed, AdmitsShown, Answers, IsDone, IsExcused};
ghost use Rattle.job_answers.specs.Calls.{Stopped, call_of, output_of};
ghost use Rattle.job_answers.specs.Jobs.{IsKnownFault, IsKnownProgram, IsReady, KnownProgramFault};
ghost use Rattle.text_jobs.specs.Newer.{AdmitsTo};

use admits_report::write_admission;
use dsu_io::{Files, Sink};
use dsu_report::{FaultLine, ReportFault};
use input_files::Source;
use job_answers::{Outcome, source_in, stop, stop_after, without_end};
use std::alloc::Global;

/// Prints on `out` where a run of the text of one file could take that of another. The older text is read and checked whole
/// before the newer one is read.
pub fn admits_files<F: Files, O: Sink, E: Sink>(
    alloc: Global,
    old: &str,
    new: &str,
    files: &mut F,
    out: O,
    err: &mut E,
) -> Outcome<O>
    ensures answers { Answers (Admits old.now new.now) (F.content files.old) (F.faults files.old) (F.faults files.new)
        (call_of result (output_of O.told O.faults out result.out) (output_of E.told E.faults err.old err.new)) }
    ensures complete { IsReady (Admits old.now new.now) (F.content files.old) → IsDone result.status ⊎ IsExcused result.status }
    ensures first { (line : Line) (at : List ℕ) → IsKnownFault (Admits old.now new.now) (F.content files.old) line at
        → IsExcused result.status ⊎ Stopped line at
        (call_of result (output_of O.told O.faults out result.out) (output_of E.told E.faults err.old err.new)) }
{
    match source_in(alloc, files, old) {
        Ok(source) => admits_from(alloc, &source, new, files, out, err),
        Err(line) => stop(alloc, line, old, out, err),
    }
}

/// Prints where a run of a text could take that of a file.
fn admits_from<F: Files, O: Sink, E: Sink>(
    alloc: Global,
    older: &Source,
    new: &str,
    files: &mut F,
    out: O,
    err: &mut E,
) -> Outcome<O>
    requires { Accepted older.now.text.items older.now.typed }
    ensures answers { AdmitsTo (F.content files.old) (F.faults files.old) (F.faults files.new)
        older.now.typed older.now.text.items new.now
        (call_of result (output_of O.told O.faults out result.out) (output_of E.told E.faults err.old err.new)) }
    ensures complete { (next : Program) → IsKnownProgram (F.content files.old new.now) next
        → IsDone result.status ⊎ IsExcused result.status }
    ensures first { (line : Line) → KnownProgramFault (F.content files.old new.now) line
        → IsExcused result.status ⊎ Stopped line new.now
        (call_of result (output_of O.told O.faults out result.out) (output_of E.told E.faults err.old err.new)) }
{
    match source_in(alloc, files, new) {
        Ok(newer) => print_admission(alloc, older, &newer, out, err),
        Err(line) => stop(alloc, line, new, out, err),
    }
}

/// Prints where a run of one text could take another.
fn print_admission<O: Sink, E: Sink>(
    alloc: Global,
    older: &Source,
    newer: &Source,
    out: O,
    err: &mut E,
) -> Outcome<O>
    requires older { Accepted older.now.text.items older.now.typed }
    requires newer { Accepted newer.now.text.items newer.now.typed }
    ensures { AdmitsShown older.now.typed older.now.text.items newer.now.typed newer.now.text.items
        (call_of result (output_of O.told O.faults out result.out) (output_of E.told E.faults err.old err.new))
        ⊎ AdmitsFailed older.now.typed older.now.text.items newer.now.typed newer.now.text.items
        (call_of result (output_of O.told O.faults out result.out) (output_of E.told E.faults err.old err.new))
        ⊎ Stopped FaultLine.Memory []
        (call_of result (output_of O.told O.faults out result.out) (output_of E.told E.faults err.old err.new)) }
{
    let mut out = out;
    match write_admission(
        alloc,
        &older.typed,
        &older.text,
        &newer.typed,
        &newer.text,
        &mut out,
    ) {
        Ok(()) => without_end(alloc, 0, out, Vec::new(alloc)),
        Err(ReportFault::Failed) => stop_after(
            alloc,
            Vec::new(alloc),
            FaultLine::Write,
            "",
            out,
            err,
        ),
        Err(ReportFault::Memory) => stop(alloc, FaultLine::Memory, "", out, err),
    }
}
