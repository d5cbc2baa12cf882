ghost use Rattle.std.specs.Prelude.{◌⊎◌, ℕ, List, []};
ghost use Rattle.c_front.specs.Accepted.{Accepted};
ghost use Rattle.dsu_cli.specs.declared.job.Job.TheVariants.{Effects};
ghost use Rattle.dsu_report.specs.declared.fault.FaultLine.{FaultLine as Line};
ghost use Rattle.job_answers.specs.Answers.{Answers, EffectsFailed, EffectsShown, IsDone, IsExcused};
ghost use Rattle.job_answers.specs.Calls.{Stopped, call_of, output_of};
ghost use Rattle.job_answers.specs.Jobs.{IsKnownFault, IsReady};

use dsu_io::{Files, Sink};
use dsu_report::{FaultLine, ReportFault};
use effects_report::write_effects;
use input_files::Source;
use job_answers::{Outcome, source_in, stop, stop_after, without_end};
use std::alloc::Global;

/// Prints on `out` the effects of the text of a file.
pub fn effects_file<F: Files, O: Sink, E: Sink>(
    alloc: Global,
    file: &str,
    files: &mut F,
    out: O,
    err: &mut E,
) -> Outcome<O>
    ensures answers { Answers (Effects file.now) (F.content files.old) (F.faults files.old) (F.faults files.new)
        (call_of result (output_of O.told O.faults out result.out) (output_of E.told E.faults err.old err.new)) }
    ensures complete { IsReady (Effects file.now) (F.content files.old) → IsDone result.status ⊎ IsExcused result.status }
    ensures first { (line : Line) (at : List ℕ) → IsKnownFault (Effects file.now) (F.content files.old) line at
        → IsExcused result.status ⊎ Stopped line at
        (call_of result (output_of O.told O.faults out result.out) (output_of E.told E.faults err.old err.new)) }
{
    match source_in(alloc, files, file) {
        Ok(source) => print_effects(alloc, &source, out, err),
        Err(line) => stop(alloc, line, file, out, err),
    }
}

/// Prints the effects of a text.
fn print_effects<O: Sink, E: Sink>(
    alloc: Global,
    source: &Source,
    out: O,
    err: &mut E,
) -> Outcome<O>
    requires { Accepted source.now.text.items source.now.typed }
    ensures { EffectsShown source.now.typed source.now.text.items
        (call_of result (output_of O.told O.faults out result.out) (output_of E.told E.faults err.old err.new))
        ⊎ EffectsFailed source.now.typed source.now.text.items
        (call_of result (output_of O.told O.faults out result.out) (output_of E.told E.faults err.old err.new))
        ⊎ Stopped FaultLine.Memory []
        (call_of result (output_of O.told O.faults out result.out) (output_of E.told E.faults err.old err.new)) }
{
    let mut out = out;
    match write_effects(alloc, &source.typed, &source.text, &mut out) {
        Ok(()) => without_end(alloc, 0, out, Vec::new(alloc)),
        Err(ReportFault::Failed) => stop_after(
            alloc,
            Vec::new(alloc),
            FaultLine::Write,
            "",
            out,
            err,
        ),
        Err(ReportFault::Memory) => stop(alloc, FaultLine::Memory, "", out, err),
    }
}
