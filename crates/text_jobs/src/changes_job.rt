ghost use Rattle.std.specs.Prelude.{◌⊎◌, ℕ, List, []};
ghost use Rattle.c_tree.specs.declared.def.Program.{Program};
ghost use Rattle.dsu_cli.specs.declared.job.Job.TheVariants.{Changes};
ghost use Rattle.dsu_report.specs.declared.fault.FaultLine.{FaultLine as Line};
ghost use Rattle.job_answers.specs.Answers.{Answers, ChangesFailed, ChangesShown, IsDone, IsExcused};
ghost use Rattle.job_answers.specs.Calls.{Stopped, call_of, output_of};
ghost use Rattle.job_answers.specs.Jobs.{IsKnownFault, IsKnownProgram, IsReady, KnownProgramFault};
ghost use Rattle.text_jobs.specs.Newer.{ChangesTo};

use c_types::Typed;
use changes_report::write_changes;
use dsu_io::{Files, Sink};
use dsu_report::{FaultLine, ReportFault};
use input_files::Source;
use job_answers::{Outcome, program_of, source_in, stop, stop_after, without_end};
use std::alloc::Global;

/// Prints on `out` what changes from the text of one file to that of another. The older text is read and checked whole before
/// the newer one is read.
pub fn changes_files<F: Files, O: Sink, E: Sink>(
    alloc: Global,
    old: &str,
    new: &str,
    files: &mut F,
    out: O,
    err: &mut E,
) -> Outcome<O>
    ensures answers { Answers (Changes old.now new.now) (F.content files.old) (F.faults files.old) (F.faults files.new)
        (call_of result (output_of O.told O.faults out result.out) (output_of E.told E.faults err.old err.new)) }
    ensures complete { IsReady (Changes old.now new.now) (F.content files.old) → IsDone result.status ⊎ IsExcused result.status }
    ensures first { (line : Line) (at : List ℕ) → IsKnownFault (Changes old.now new.now) (F.content files.old) line at
        → IsExcused result.status ⊎ Stopped line at
        (call_of result (output_of O.told O.faults out result.out) (output_of E.told E.faults err.old err.new)) }
{
    match program_of(alloc, files, old) {
        Ok(program) => changes_from(alloc, &program, new, files, out, err),
        Err(line) => stop(alloc, line, old, out, err),
    }
}

/// Prints what changes from a program to the text of a file.
fn changes_from<F: Files, O: Sink, E: Sink>(
    alloc: Global,
    program: &Typed,
    new: &str,
    files: &mut F,
    out: O,
    err: &mut E,
) -> Outcome<O>
    ensures answers { ChangesTo (F.content files.old) (F.faults files.old) (F.faults files.new) program.now new.now
        (call_of result (output_of O.told O.faults out result.out) (output_of E.told E.faults err.old err.new)) }
    ensures complete { (next : Program) → IsKnownProgram (F.content files.old new.now) next
        → IsDone result.status ⊎ IsExcused result.status }
    ensures first { (line : Line) → KnownProgramFault (F.content files.old new.now) line
        → IsExcused result.status ⊎ Stopped line new.now
        (call_of result (output_of O.told O.faults out result.out) (output_of E.told E.faults err.old err.new)) }
{
    match source_in(alloc, files, new) {
        Ok(source) => print_changes(alloc, program, &source, out, err),
        Err(line) => stop(alloc, line, new, out, err),
    }
}

/// Prints what changes from a program to a text.
fn print_changes<O: Sink, E: Sink>(
    alloc: Global,
    program: &Typed,
    source: &Source,
    out: O,
    err: &mut E,
) -> Outcome<O>
    ensures { ChangesShown program.now source.now.typed source.now.text.items
        (call_of result (output_of O.told O.faults out result.out) (output_of E.told E.faults err.old err.new))
        ⊎ ChangesFailed program.now source.now.typed source.now.text.items
        (call_of result (output_of O.told O.faults out result.out) (output_of E.told E.faults err.old err.new))
        ⊎ Stopped FaultLine.Memory []
        (call_of result (output_of O.told O.faults out result.out) (output_of E.told E.faults err.old err.new)) }
{
    let mut out = out;
    match write_changes(alloc, program, &source.typed, &source.text, &mut out) {
        Ok(()) => without_end(alloc, 0, out, Vec::new(alloc)),
        Err(ReportFault::Failed) => stop_after(
            alloc,
            Vec::new(alloc),
            FaultLine::Write,
            "",
            out,
            err,
        ),
        Err(ReportFault::Memory) => stop(alloc, FaultLine::Memory, "", out, err),
    }
}
