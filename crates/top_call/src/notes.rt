//! What explains the report of a job.
ghost use Rattle.std.specs.Prelude.{◌≤◌, All, IfSome, length};
ghost use Rattle.fault_notes.specs.Notes.{AreNotes};
ghost use Rattle.input_files.specs.Sources.{text_limit};
ghost use Rattle.noted_reports.specs.NotedReports.{AddsNotes, WithNotes, fault_mark, run_mark};
ghost use Rattle.top_call.specs.Explained.{Noted};

use crate::pairs::notes_of_pair;
use crate::runs::notes_of_run;
use c_front::{FaultKind, TextFault, read_text};
use dsu_cli::{Job, Offer};
use dsu_io::Files;
use dsu_report::{FaultLine, place_of, write_fault};
use fault_notes::notes_of;
use input_files::TEXT_LIMIT;
use job_answers::Outcome;
use noted_reports::{FAULT_MARK, Report, interleave};
use run_types::{Ending, Event};
use std::alloc::Global;

/// The status of a job that was done.
const DONE: u8 = 0;

/// The status of a refused text.
const REFUSED: u8 = 11;

/// The report of a job with its notes; without memory for them, the report alone.
pub(crate) fn noted<F: Files, O>(
    alloc: Global,
    job: &Job,
    files: &mut F,
    outcome: &Outcome<O>,
    report: Vec<u8>,
) -> Vec<u8>
    ensures { Noted outcome.now.ending report.items result.items }
{
    match outcome.ending {
        Some(ending) => {
            with_run_notes(
                alloc,
                job,
                files,
                outcome.history.as_slice(),
                ending,
                report,
            )
        }
        None => with_fault_notes(alloc, job, files, outcome.status, report),
    }
}

/// The report of a run that ended, with its notes.
fn with_run_notes<F: Files>(
    alloc: Global,
    job: &Job,
    files: &mut F,
    history: &[Event],
    ending: Ending,
    report: Vec<u8>,
) -> Vec<u8>
    ensures { WithNotes run_mark report.items result.items }
{
    match notes_of_run(alloc, job, files, history, ending) {
        Some(notes) => with_notes_between(alloc, report, &notes),
        None => report,
    }
}

/// A report with notes after some of its lines; without memory for them, the report alone.
fn with_notes_between(alloc: Global, report: Vec<u8>, notes: &[Vec<u8>]) -> Vec<u8>
    requires { All (λ n. AreNotes run_mark n.items) notes.now }
    ensures { WithNotes run_mark report.items result.items }
{
    match interleave(alloc, &report, notes) {
        Ok(text) => text,
        Err(_) => report,
    }
}

/// The report of a job that came to no end, with the notes that explain what it found, if it has some.
fn with_fault_notes<F: Files>(
    alloc: Global,
    job: &Job,
    files: &mut F,
    status: u8,
    report: Vec<u8>,
) -> Vec<u8>
    ensures { AddsNotes report.items result.items }
{
    match notes_by_status(alloc, job, files, status, &report) {
        Some(notes) => with_notes(report, &notes),
        None => report,
    }
}

/// The notes of a job that came to no end: those of the fault of a text that was refused; of a job that was done those of a text
/// that is no patch.
fn notes_by_status<F: Files>(
    alloc: Global,
    job: &Job,
    files: &mut F,
    status: u8,
    report: &[u8],
) -> Option<Vec<u8>>
    ensures { IfSome result (λ notes. AreNotes fault_mark notes.items) }
{
    match status {
        DONE => notes_of_pair(alloc, job, files),
        REFUSED => notes_for(alloc, job, files, report),
        _ => None,
    }
}

/// A report and notes after it; without memory for them, the report alone.
fn with_notes(report: Vec<u8>, notes: &[u8]) -> Vec<u8>
    requires { AreNotes fault_mark notes.now }
    ensures { AddsNotes report.items result.items }
{
    let mut text = report;
    match text.extend_from_slice(notes) {
        Ok(()) => text,
        Err(_) => text,
    }
}

/// What explains the fault that a report has, of the first text of a job that has it. The files are read in the order in which
/// the job reads them. A journal has no notes.
fn notes_for<F: Files>(alloc: Global, job: &Job, files: &mut F, report: &[u8]) -> Option<Vec<u8>>
    ensures { IfSome result (λ notes. AreNotes fault_mark notes.items) }
{
    match job {
        Job::Run(job) => {
            let offers = job.offers.as_slice();
            notes_with_offers(alloc, job.file.as_str(), offers, files, report)
        }
        Job::Replay(job) => {
            let offers = job.offers.as_slice();
            notes_with_offers(alloc, job.file.as_str(), offers, files, report)
        }
        Job::Check(file) | Job::Effects(file) => notes_in(alloc, file.as_str(), files, report),
        Job::Changes(old, new) | Job::Admits(old, new) => {
            notes_in_either(alloc, old.as_str(), new.as_str(), files, report)
        }
        Job::Gen(_, _, _) => None,
    }
}

/// The notes of the text of a program, or else of the first offer that has some.
fn notes_with_offers<F: Files>(
    alloc: Global,
    file: &str,
    offers: &[Offer],
    files: &mut F,
    report: &[u8],
) -> Option<Vec<u8>>
    ensures { IfSome result (λ notes. AreNotes fault_mark notes.items) }
{
    match notes_in(alloc, file, files, report) {
        Some(notes) => Some(notes),
        None => notes_of_offers(alloc, offers, files, report),
    }
}

/// The notes of the first of some offers that has some.
fn notes_of_offers<F: Files>(
    alloc: Global,
    offers: &[Offer],
    files: &mut F,
    report: &[u8],
) -> Option<Vec<u8>>
    ensures { IfSome result (λ notes. AreNotes fault_mark notes.items) }
{
    for offer in offers {
        if let Some(notes) = notes_in(alloc, offer.file.as_str(), files, report) {
            return Some(notes);
        }
    }
    None
}

/// The notes of an older text, or else those of a newer one.
fn notes_in_either<F: Files>(
    alloc: Global,
    old: &str,
    new: &str,
    files: &mut F,
    report: &[u8],
) -> Option<Vec<u8>>
    ensures { IfSome result (λ notes. AreNotes fault_mark notes.items) }
{
    match notes_in(alloc, old, files, report) {
        Some(notes) => Some(notes),
        None => notes_in(alloc, new, files, report),
    }
}

/// The notes of the text of a file, where the line of its fault is the report. A file that can't be read again has none.
fn notes_in<F: Files>(alloc: Global, file: &str, files: &mut F, report: &[u8]) -> Option<Vec<u8>>
    ensures { IfSome result (λ notes. AreNotes fault_mark notes.items) }
{
    let mut text = Vec::new(alloc);
    match files.read(file, &mut text, TEXT_LIMIT) {
        Ok(()) => notes_of_text(alloc, file, &text, report),
        Err(_) => None,
    }
}

/// The notes of a text, where the line of its first fault is the report.
fn notes_of_text(alloc: Global, file: &str, text: &[u8], report: &[u8]) -> Option<Vec<u8>>
    requires { length text.now ≤ text_limit }
    ensures { IfSome result (λ notes. AreNotes fault_mark notes.items) }
{
    match read_text(alloc, text) {
        Err(TextFault::Refused(wrong, at)) => notes_at(alloc, file, text, wrong, at, report),
        Ok(_) | Err(TextFault::Memory) => None,
    }
}

/// The notes of a fault of a text, where its line is the report.
fn notes_at(
    alloc: Global,
    file: &str,
    text: &[u8],
    wrong: FaultKind,
    at: usize,
    report: &[u8],
) -> Option<Vec<u8>>
    requires { length text.now ≤ text_limit }
    ensures { IfSome result (λ notes. AreNotes fault_mark notes.items) }
{
    let line = line_of(alloc, file, text, wrong, at);
    if line.bytes() != report {
        return None;
    }
    match notes_of(alloc, FAULT_MARK, text, wrong, at) {
        Ok(notes) => Some(notes),
        Err(_) => None,
    }
}

/// The line that reports a fault of a text.
fn line_of(alloc: Global, file: &str, text: &[u8], wrong: FaultKind, at: usize) -> Report
    requires { length text.now ≤ text_limit }
{
    let place = place_of(text, at.min(text.len()));
    let fault = FaultLine::Place(place.line, place.column, wrong);
    let mut line = Report::new(alloc);
    let _ = write_fault(file, fault, &mut line);
    line
}
