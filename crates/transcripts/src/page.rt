//! What a transcript shows of a call.

use crate::calls::Seen;
use dsu_io::MemorySink;
use dsu_report::trap_word;
use job_answers::Outcome;
use run_types::{Ending, Event};
use std::alloc::{AllocError, Global};

/// The most events that the line of an outcome lists.
const MOST_LISTED: usize = 8;

/// Adds the lines of a text, each after a mark.
pub(crate) fn quote(mark: &[u8], text: &[u8], page: &mut Vec<u8>) -> Result<(), AllocError> {
    let mut begins = true;
    for byte in text {
        if begins {
            page.extend_from_slice(mark)?;
        }
        page.push(*byte)?;
        begins = *byte == b'\n';
    }
    if !begins {
        page.extend_from_slice(b"\n\\ no newline\n")?;
    }
    Ok(())
}

/// Adds what a call came to.
pub(crate) fn show(alloc: Global, seen: &Seen, page: &mut Vec<u8>) -> Result<(), AllocError> {
    quote(b"! ", seen.err.bytes(), page)?;
    let events = few_events(alloc, &seen.outcome.history)?;
    show_outcome(alloc, &seen.outcome, events.as_str(), page)
}

/// Adds the line of an outcome: its status, its ending, what became of offers, and how many events it has with a remark on them.
pub(crate) fn show_outcome(
    alloc: Global,
    outcome: &Outcome<MemorySink>,
    remark: &str,
    page: &mut Vec<u8>,
) -> Result<(), AllocError> {
    let mut line = String::new(alloc);
    let status = outcome.status;
    write!(line, "= status {status}")?;
    if let Some(ending) = outcome.ending {
        add_ending(ending, &mut line)?;
    }
    add_answers(outcome, &mut line)?;
    add_events(outcome, remark, &mut line)?;
    line.push('\n')?;
    page.extend_from_slice(line.as_bytes())
}

/// Adds how a run ended.
fn add_ending(ending: Ending, line: &mut String) -> Result<(), AllocError> {
    match ending {
        Ending::Finished(value) => write!(line, ", finished {value}"),
        Ending::Trap(kind, thread) => {
            let word = trap_word(kind);
            write!(line, ", trap {word} thread {thread}")
        }
        Ending::Deadlock => line.push_str(", deadlock"),
        Ending::Cut => line.push_str(", cut"),
    }
}

/// Adds how many events there are, where there is a run.
fn add_events(
    outcome: &Outcome<MemorySink>,
    remark: &str,
    line: &mut String,
) -> Result<(), AllocError> {
    let count = outcome.history.len();
    if count == 0 && outcome.ending.is_none() {
        return Ok(());
    }
    let plural = if count == 1 { "" } else { "s" };
    write!(line, ", {count} event{plural}{remark}")
}

/// Adds how many answers there are and which version is in force, where there are answers.
fn add_answers(outcome: &Outcome<MemorySink>, line: &mut String) -> Result<(), AllocError> {
    let count = outcome.answers.len();
    let plural = if count == 1 { "" } else { "s" };
    match &outcome.installed {
        Some(in_force) if count > 0 => {
            let version = in_force.version;
            write!(line, ", {count} answer{plural}, version {version}")
        }
        _ => Ok(()),
    }
}

/// The list of a few events after a colon; of many, nothing.
fn few_events(alloc: Global, events: &[Event]) -> Result<String, AllocError> {
    let mut list = String::new(alloc);
    if events.len() > MOST_LISTED {
        return Ok(list);
    }
    let mut mark = ":";
    for event in events {
        let (letter, number) = event_words(*event);
        write!(list, "{mark} {letter} {number}")?;
        mark = ",";
    }
    Ok(list)
}

/// The letter and the number of an event's line in a journal.
fn event_words(event: Event) -> (&'static str, u8) {
    match event {
        Event::Move(thread) => ("s", thread),
        Event::CheckIn(thread) => ("c", thread),
        Event::Offer(number) => ("o", number),
        Event::Decide(number) => ("d", number),
        Event::Withdraw(number) => ("w", number),
    }
}
