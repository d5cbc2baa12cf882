ghost use Rattle.std.specs.Prelude.{◌⊎◌, ◌≡◌, ℕ, List, [], None};
ghost use Rattle.dsu_io.specs.Causes.{HasCause};
ghost use Rattle.dsu_io.specs.Sinks.{PutAppends};
ghost use Rattle.dsu_io.specs.declared.text.Text.{Text};
ghost use Rattle.dsu_cli.specs.declared.job.Job.TheVariants.{Check};
ghost use Rattle.dsu_report.specs.declared.fault.FaultLine.{FaultLine as Line};
ghost use Rattle.job_answers.specs.Answers.{Answers, Checked, CheckFailed, IsDone, IsExcused};
ghost use Rattle.job_answers.specs.Calls.{Stopped, call_of, output_of};
ghost use Rattle.job_answers.specs.Jobs.{IsKnownFault, IsReady};
ghost use Rattle.job_answers.specs.Reports.{names_line};

use dsu_io::{Failed, Files, Sink, put_all};
use dsu_report::FaultLine;
use itoa::Buffer;
use job_answers::{Outcome, program_of, stop, stop_after, without_end};
use std::alloc::Global;

/// Checks the text of a file, and prints on `out` how many names it has.
pub fn check_file<F: Files, O: Sink, E: Sink>(
    alloc: Global,
    file: &str,
    files: &mut F,
    out: O,
    err: &mut E,
) -> Outcome<O>
    ensures answers { Answers (Check file.now) (F.content files.old) (F.faults files.old) (F.faults files.new)
        (call_of result (output_of O.told O.faults out result.out) (output_of E.told E.faults err.old err.new)) }
    ensures complete { IsReady (Check file.now) (F.content files.old) → IsDone result.status ⊎ IsExcused result.status }
    ensures first { (line : Line) (at : List ℕ) → IsKnownFault (Check file.now) (F.content files.old) line at
        → IsExcused result.status ⊎ Stopped line at
        (call_of result (output_of O.told O.faults out result.out) (output_of E.told E.faults err.old err.new)) }
{
    match program_of(alloc, files, file) {
        Ok(program) => print_names(alloc, program.names(), out, err),
        Err(line) => stop(alloc, line, file, out, err),
    }
}

/// Prints how many names a text has.
fn print_names<O: Sink, E: Sink>(alloc: Global, names: usize, out: O, err: &mut E) -> Outcome<O>
    ensures { Checked names (call_of result (output_of O.told O.faults out result.out) (output_of E.told E.faults err.old err.new))
        ⊎ CheckFailed names (call_of result (output_of O.told O.faults out result.out) (output_of E.told E.faults err.old err.new)) }
{
    let mut out = out;
    match write_names(names, &mut out) {
        Ok(()) => without_end(alloc, 0, out, Vec::new(alloc)),
        Err(_) => stop_after(alloc, Vec::new(alloc), FaultLine::Write, "", out, err),
    }
}

/// Writes the line of a text's number of names. It takes no memory.
fn write_names<S: Sink>(names: usize, sink: &mut S) -> Result<(), Failed>
    ensures bytes { PutAppends (S.told sink.old) (S.told sink.new) result (names_line names) }
    ensures cause { HasCause (S.faults sink.old) (S.faults sink.new) result }
{
    let mut digits = Buffer::new();
    put_all(
        sink,
        &[b"ok ", digits.format(names).as_bytes(), b" names\n"],
    )
}
