//! The top call.
ghost use Rattle.std.specs.Prelude.{◌≡◌, ◌⊎◌, ℕ, List, [], None, Some};
ghost use Rattle.dsu_cli.specs.Words.{detail_of, job_of};
ghost use Rattle.dsu_cli.specs.declared.job.Job.{Job as Asked};
ghost use Rattle.dsu_report.specs.declared.fault.FaultLine.{FaultLine as Line};
ghost use Rattle.dsu_report.specs.declared.fault.FaultLine.TheVariants.{Memory, Usage};
ghost use Rattle.job_answers.specs.Answers.{IsDone, IsExcused};
ghost use Rattle.job_answers.specs.Calls.{Stopped, call_of, output_of};
ghost use Rattle.job_answers.specs.Jobs.{IsKnownFault, IsReady};
ghost use Rattle.top_call.specs.Explained.{Responds, StoppedAs};
ghost use Rattle.top_call.specs.Words.{IsInRange, asked};

use crate::explained::explain;
use crate::plain::done;
use crate::words::request_in;
use dsu_cli::{Detail, Request};
use dsu_io::{Files, Sink, Text};
use job_answers::{Outcome, stop};
use std::alloc::Global;

/// Does what the words of a command line ask for; they are those after the program's name.
///
/// What `out` holds at the end is given back with it. `job_answers` has the words of the clauses, in
/// `specs/Answers.antt`, and `specs/Explained.antt` those of a job that is explained.
pub fn dsu_main<F: Files, O: Sink, E: Sink>(
    alloc: Global,
    words: &[Text],
    files: &mut F,
    out: O,
    err: &mut E,
) -> Outcome<O>
    // Words that fit no command are answered with the usage text.
    ensures usage { job_of words.now ≡ None → Stopped Usage []
        (call_of result (output_of O.told O.faults out result.out) (output_of E.told E.faults err.old err.new)) }
    // So are those of an option that isn't built, unless memory fails.
    ensures unbuilt { asked words.now ≡ None
        → Stopped Usage [] (call_of result (output_of O.told O.faults out result.out) (output_of E.told E.faults err.old err.new))
        ⊎ Stopped Memory [] (call_of result (output_of O.told O.faults out result.out) (output_of E.told E.faults err.old err.new)) }
    // A job is done as far as its files, the outputs and memory let it, and explained where the words ask for it.
    ensures answers { (job : Asked) → asked words.now ≡ Some job
        → Responds (detail_of words.now) job (F.content files.old) (F.faults files.old) (F.faults files.new)
        (call_of result (output_of O.told O.faults out result.out) (output_of E.told E.faults err.old err.new)) }
    // A job whose files are known and have no fault is done to its end, unless a file, an output or memory fails.
    ensures complete { (job : Asked) → asked words.now ≡ Some job → IsReady job (F.content files.old)
        → IsDone result.status ⊎ IsExcused result.status }
    // And the first fault of known files is reported.
    ensures first { (job : Asked) (line : Line) (file : List ℕ) → asked words.now ≡ Some job
        → IsKnownFault job (F.content files.old) line file
        → IsExcused result.status ⊎ StoppedAs (detail_of words.now) line file
        (call_of result (output_of O.told O.faults out result.out) (output_of E.told E.faults err.old err.new)) }
{
    match request_in(alloc, words) {
        Ok(request) => respond(alloc, &request, files, out, err),
        Err(fault) => stop(alloc, fault, "", out, err),
    }
}

/// Does a job, and explains it where that is asked for.
fn respond<F: Files, O: Sink, E: Sink>(
    alloc: Global,
    request: &Request,
    files: &mut F,
    out: O,
    err: &mut E,
) -> Outcome<O>
    requires range { IsInRange request.now.job }
    ensures answers { Responds request.now.detail request.now.job (F.content files.old) (F.faults files.old) (F.faults files.new)
        (call_of result (output_of O.told O.faults out result.out) (output_of E.told E.faults err.old err.new)) }
    ensures complete { IsReady request.now.job (F.content files.old) → IsDone result.status ⊎ IsExcused result.status }
    ensures first { (line : Line) (file : List ℕ) → IsKnownFault request.now.job (F.content files.old) line file
        → IsExcused result.status ⊎ StoppedAs request.now.detail line file
        (call_of result (output_of O.told O.faults out result.out) (output_of E.told E.faults err.old err.new)) }
{
    match request.detail {
        Detail::Plain => done(alloc, &request.job, files, out, err),
        Detail::Explained => explain(alloc, &request.job, files, out, err),
    }
}
