//! A job with its report explained.
ghost use Rattle.std.specs.Prelude.{◌≡◌, ◌⊎◌, ℕ, List, [], None, Some};
ghost use Rattle.dsu_report.specs.declared.fault.FaultLine.{FaultLine as Line};
ghost use Rattle.dsu_report.specs.Faults.{fault_line};
ghost use Rattle.job_answers.specs.Answers.{IsDone, IsExcused};
ghost use Rattle.job_answers.specs.Calls.{Output, Writes, call_of, output_of};
ghost use Rattle.job_answers.specs.Jobs.{IsKnownFault, IsReady};
ghost use Rattle.top_call.specs.Explained.{Explains, StoppedNoted, WroteText, unwritten};
ghost use Rattle.top_call.specs.Words.{IsInRange};

use crate::notes::noted;
use crate::plain::done;
use dsu_cli::Job;
use dsu_io::{Files, Sink, put};
use dsu_report::{FaultLine, write_fault};
use job_answers::Outcome;
use noted_reports::Report;
use std::alloc::Global;

/// Does a job whose report is explained. The report is kept until the job is done, and the files that it is about are then read
/// once more.
pub(crate) fn explain<F: Files, O: Sink, E: Sink>(
    alloc: Global,
    job: &Job,
    files: &mut F,
    out: O,
    err: &mut E,
) -> Outcome<O>
    requires range { IsInRange job.now }
    ensures answers { Explains job.now (F.content files.old) (F.faults files.old)
        (call_of result (output_of O.told O.faults out result.out) (output_of E.told E.faults err.old err.new)) }
    ensures complete { IsReady job.now (F.content files.old) → IsDone result.status ⊎ IsExcused result.status }
    ensures first { (line : Line) (file : List ℕ) → IsKnownFault job.now (F.content files.old) line file
        → IsExcused result.status ⊎ StoppedNoted line file
        (call_of result (output_of O.told O.faults out result.out) (output_of E.told E.faults err.old err.new)) }
{
    let mut report = Report::new(alloc);
    let outcome = done(alloc, job, files, out, &mut report);
    if report.is_short() {
        return forgotten(alloc, outcome, err);
    }
    let text = noted(alloc, job, files, &outcome, report.into_bytes());
    reported(alloc, outcome, &text, err)
}

/// What a job came to whose report couldn't be kept.
fn forgotten<O, E: Sink>(alloc: Global, outcome: Outcome<O>, err: &mut E) -> Outcome<O>
    ensures status { result.status ≡ 20 }
    ensures out { result.out ≡ outcome.out }
    ensures history { result.history ≡ outcome.history }
    ensures ending { result.ending ≡ None }
    ensures answers { result.answers.items ≡ [] }
    ensures installed { result.installed ≡ None }
    ensures err { Writes (output_of E.told E.faults err.old err.new) (fault_line FaultLine.Memory []) }
{
    let _ = write_fault("", FaultLine::Memory, err);
    without_end(alloc, outcome, FaultLine::Memory.status())
}

/// Writes the text of a job's report, and hands back what the job came to. Where the text can't be written whole no ending is
/// handed back, as where a plain report can't.
fn reported<O, E: Sink>(alloc: Global, outcome: Outcome<O>, text: &[u8], err: &mut E) -> Outcome<O>
    ensures out { result.out ≡ outcome.out }
    ensures wrote { (out kept : Output)
        → WroteText (call_of outcome out kept) text.now (call_of result out (output_of E.told E.faults err.old err.new)) }
{
    match put(err, text) {
        Ok(()) => outcome,
        Err(_) => {
            let status = unwritten(outcome.status);
            without_end(alloc, outcome, status)
        }
    }
}

/// The status where standard error failed at the report.
fn unwritten(status: u8) -> u8
    ensures { result ≡ unwritten status }
{
    if status <= 3 {
        FaultLine::Write.status()
    } else {
        status
    }
}

/// What a job came to, without its ending and with another status.
fn without_end<O>(alloc: Global, outcome: Outcome<O>, status: u8) -> Outcome<O>
    ensures status { result.status ≡ status }
    ensures out { result.out ≡ outcome.out }
    ensures history { result.history ≡ outcome.history }
    ensures ending { result.ending ≡ None }
    ensures answers { result.answers.items ≡ [] }
    ensures installed { result.installed ≡ None }
{
    let Outcome { out, history, .. } = outcome;
    Outcome {
        status,
        out,
        history,
        ending: None,
        answers: Vec::new(alloc),
        installed: None,
    }
}
