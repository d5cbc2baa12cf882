//! The slots and events of a text.
ghost use Rattle.std.specs.Prelude.{◌≡◌, ◌≢◌, ◌≤◌, ◌<◌, ◌+◌, ◌-◌, ◌^◌, ◌++◌, length, replicate, OnOk, Ok, Err, MatchResult};
ghost use Rattle.journal_versions.specs.Journals.{as_journal, events_from, journal_in, lines, most_events, slots_in, slots_of};

use crate::MOST_EVENTS;
use crate::fault::JournalFault;
use crate::form::Form;
use crate::line::{group_of, is_comment, split_line};
use run_types::Event;
use std::alloc::Global;

/// What a journal says of a run.
#[derive(Debug, Drop)]
pub struct Journal {
    /// How many slots the run has, 16 or 32.
    pub slots: u8,
    /// Its events, each with the number of its line.
    pub events: Vec<(u32, Event)>,
}

/// The slots and events of a journal's text, or the text's first fault. It goes over the bytes once and copies no line.
pub fn read_journal(alloc: Global, text: &[u8]) -> Result<Journal, JournalFault>
    requires { length text.now < 2 ^ 32 - 1 }
    ensures { MatchResult result
        (λ journal. journal_in text.now ≡ Ok (journal.slots, journal.events.items))
        (λ fault. fault ≢ JournalFault.Memory → journal_in text.now ≡ Err fault) }
{
    if text.is_empty() {
        return Err(JournalFault::Header);
    }
    let (first, rest) = split_line(text);
    let Some(form) = Form::of(first) else {
        return Err(JournalFault::Header);
    };
    match read_lines(alloc, form, rest) {
        Ok(events) => Ok(Journal {
            slots: form.slots(),
            events,
        }),
        Err(fault) => Err(fault),
    }
}

/// How many slots the first line of a text says, if it is that of a journal.
pub fn journal_slots(text: &[u8]) -> Option<u8>
    ensures { result ≡ slots_in text.now }
{
    if text.is_empty() {
        return None;
    }
    let (first, _) = split_line(text);
    Some(Form::of(first)?.slots())
}

/// The events of the lines after the first.
fn read_lines(alloc: Global, form: Form, text: &[u8]) -> Result<Vec<(u32, Event)>, JournalFault>
    requires { length text.now < 2 ^ 32 - 2 }
    ensures { MatchResult result
        (λ events. events_from form 2 0 (lines text.now) ≡ Ok events.items)
        (λ fault. fault ≢ JournalFault.Memory → as_journal (slots_of form) (events_from form 2 0 (lines text.now)) ≡ Err fault) }
{
    let mut events = Vec::new(alloc);
    let mut number = 2;
    let mut rest = text;
    while !rest.is_empty() {
        let (line, after) = split_line(rest);
        if !is_comment(line) {
            let Some((event, times)) = group_of(form, line) else {
                return Err(JournalFault::NoEvent(number));
            };
            let all = events.len() + times as usize;
            if all > MOST_EVENTS as usize {
                return Err(JournalFault::NoEvent(number));
            }
            if events.resize(all, (number, event)).is_err() {
                return Err(JournalFault::Memory);
            }
        }
        rest = after;
        number += 1;
    }
    Ok(events)
}
