//! Runs whose journals are printed, and their replays.

use crate::calls::{Seen, see};
use crate::page::{quote, show_outcome};
use crate::stage::Stage;
use dsu_io::{MemorySink, StdSink, Text};
use dsu_journal::print_journal;
use dsu_report::write_answers;
use job_answers::Outcome;
use run_types::Event;
use std::alloc::{AllocError, Global};

/// The file of the journal that a run printed.
const JOURNAL: &str = "run.j";

/// The most events of a journal that is shown whole.
const MOST_SHOWN: usize = 12;

/// Whether the words ask for the journal.
pub(crate) fn has_journal(words: &[Text]) -> bool {
    for word in words {
        if word.as_str() == "--journal" {
            return true;
        }
    }
    false
}

/// Adds what a run came to whose journal and report were printed whole, and how its replay went.
pub(crate) fn show_run(
    alloc: Global,
    words: &[Text],
    seen: &Seen,
    stage: &mut Stage,
    page: &mut Vec<u8>,
) -> Result<(), AllocError> {
    let journal = journal_of(alloc, &seen.outcome.history)?;
    let err = seen.err.bytes();
    let printed = err.to_vec(alloc)?;
    stage.set(alloc, JOURNAL, printed)?;
    match err.strip_prefix(journal.as_slice()) {
        Some(report) => {
            show_journal(alloc, &journal, seen.outcome.history.len(), page)?;
            quote(b"! ", report, page)?;
            let remark = replayed(alloc, words, &seen.outcome, report, stage)?;
            show_outcome(alloc, &seen.outcome, remark, page)
        }
        None => {
            quote(b"! ", err, page)?;
            show_outcome(alloc, &seen.outcome, " that the journal doesn't have", page)
        }
    }
}

/// The journal of some events.
fn journal_of(alloc: Global, events: &[Event]) -> Result<Vec<u8>, AllocError> {
    let mut journal = StdSink::new(Vec::new(alloc));
    match print_journal(events, &mut journal) {
        Ok(()) => Ok(journal.into_inner()),
        Err(_) => Err(AllocError),
    }
}

/// Adds a journal, or how many events a long one has.
fn show_journal(
    alloc: Global,
    journal: &[u8],
    events: usize,
    page: &mut Vec<u8>,
) -> Result<(), AllocError> {
    if events <= MOST_SHOWN {
        return quote(b"! ", journal, page);
    }
    let line = format!(in alloc; "= a journal of {events} events\n")?;
    page.extend_from_slice(line.as_bytes())
}

/// Replays a run from its journal, and says how that went. `report` is what standard error has after the journal.
fn replayed(
    alloc: Global,
    words: &[Text],
    run: &Outcome<MemorySink>,
    report: &[u8],
    stage: &Stage,
) -> Result<&'static str, AllocError> {
    let words = replay_words(alloc, words)?;
    let again = see(alloc, &words, stage)?;
    let remark = difference(alloc, run, report, &again);
    drop(again);
    remark
}

/// The words that replay a run.
fn replay_words(alloc: Global, words: &[Text]) -> Result<Vec<Text>, AllocError> {
    let mut replay = Vec::new(alloc);
    let mut is_moves = false;
    for word in words {
        let word = word.as_str();
        let is_value = is_moves;
        is_moves = word == "--moves";
        if !is_value && !is_moves && word != "--journal" {
            let word = if word == "run" { "replay" } else { word };
            replay.push(Text::of(alloc, word)?)?;
        }
    }
    replay.push(Text::of(alloc, JOURNAL)?)?;
    Ok(replay)
}

/// Says in what a replay differs from its run, or that it doesn't.
fn difference(
    alloc: Global,
    run: &Outcome<MemorySink>,
    report: &[u8],
    again: &Seen,
) -> Result<&'static str, AllocError> {
    let replay = &again.outcome;
    if replay.status != run.status || replay.ending != run.ending {
        return Ok(", replayed with another ending");
    }
    if replay.out.bytes() != run.out.bytes() || again.err.bytes() != report {
        return Ok(", replayed with another output");
    }
    if replay.history.as_slice() != run.history.as_slice() {
        return Ok(", replayed with other events");
    }
    let first = answers_of(alloc, run)?;
    let second = answers_of(alloc, replay)?;
    if first != second {
        return Ok(", replayed with other answers");
    }
    Ok(", replayed")
}

/// The answers of an outcome as lines, where transformers' places are counted in an empty text.
fn answers_of(alloc: Global, outcome: &Outcome<MemorySink>) -> Result<Vec<u8>, AllocError> {
    let mut lines = StdSink::new(Vec::new(alloc));
    if let Some(in_force) = &outcome.installed {
        match write_answers(&outcome.answers, &[], &in_force.names, &mut lines) {
            Ok(()) => {}
            Err(_) => return Err(AllocError),
        }
    }
    Ok(lines.into_inner())
}
