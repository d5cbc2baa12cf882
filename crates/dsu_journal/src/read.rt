//! The events of a text.
ghost use Rattle.std.specs.Prelude.{◌≡◌, ◌≢◌, ◌<◌, ◌-◌, ◌^◌, length, Ok, Err, MatchResult};
ghost use Rattle.dsu_journal.specs.Journals.{as_journal, events_from, journal_in, lines};

use crate::fault::JournalFault;
use crate::line::{event_of, is_comment, split_line};
use run_types::Event;
use std::alloc::Global;

/// The events of a journal's text, each with its line's number, or the text's first fault. It goes over the bytes
/// once and copies no line.
pub fn read_journal(alloc: Global, text: &[u8]) -> Result<Vec<(u32, Event)>, JournalFault>
    requires { length text.now < 2 ^ 32 - 1 }
    ensures { MatchResult result
        (λ events. journal_in text.now ≡ Ok events.items)
        (λ fault. fault ≢ JournalFault.Memory → journal_in text.now ≡ Err fault) }
{
    if text.is_empty() {
        return Err(JournalFault::Header);
    }
    let (first, rest) = split_line(text);
    if first != b"ginseng-journal 1".as_slice() {
        return Err(JournalFault::Header);
    }
    read_lines(alloc, rest)
}

/// The events of the lines after the first.
fn read_lines(alloc: Global, text: &[u8]) -> Result<Vec<(u32, Event)>, JournalFault>
    requires { length text.now < 2 ^ 32 - 2 }
    ensures { MatchResult result
        (λ events. events_from 2 (lines text.now) ≡ Ok events.items)
        (λ fault. fault ≢ JournalFault.Memory → as_journal (events_from 2 (lines text.now)) ≡ Err fault) }
{
    let mut events = Vec::new(alloc);
    let mut number = 2;
    let mut rest = text;
    while !rest.is_empty() {
        let (line, after) = split_line(rest);
        if !is_comment(line) {
            let Some(event) = event_of(line) else {
                return Err(JournalFault::NoEvent(number));
            };
            if events.push((number, event)).is_err() {
                return Err(JournalFault::Memory);
            }
        }
        rest = after;
        number += 1;
    }
    Ok(events)
}
