//! The text of events.
ghost use Rattle.std.specs.Prelude.{◌≡◌, ◌≤◌, ◌+◌, ◌*◌, ◌++◌, length, take, codes};
ghost use Rattle.dsu_io.specs.Causes.{HasCause};
ghost use Rattle.dsu_io.specs.Sinks.{PutAppends};
ghost use Rattle.dsu_journal.specs.Journals.{event_line, event_lines, journal_text};

use dsu_io::{Failed, Sink, put};
use itoa::Buffer;
use run_types::Event;

/// The most events whose lines are put at once.
const PAGE_EVENTS: usize = 1024;

/// The bytes of a page, which holds those lines: a line has at most 6 bytes, its newline included.
const PAGE_LEN: usize = 6 * PAGE_EVENTS;

/// Prints the journal of a run with these events. `Failed`: a prefix of it was appended, and not all. It takes no
/// memory, and puts the lines of many events at once.
pub fn print_journal<S: Sink>(events: &[Event], sink: &mut S) -> Result<(), Failed>
    ensures bytes { PutAppends (S.told sink.old) (S.told sink.new) result (journal_text events.now) }
    ensures cause { HasCause (S.faults sink.old) (S.faults sink.new) result }
{
    put(sink, b"ginseng-journal 1\n")?;
    put_events(events, sink)
}

/// Puts the lines of events, a page at a time.
fn put_events<S: Sink>(events: &[Event], sink: &mut S) -> Result<(), Failed>
    ensures bytes { PutAppends (S.told sink.old) (S.told sink.new) result (event_lines events.now) }
    ensures cause { HasCause (S.faults sink.old) (S.faults sink.new) result }
{
    let mut page = [0; PAGE_LEN];
    let mut rest = events;
    while !rest.is_empty() {
        let (some, others) = rest.split_at(rest.len().min(PAGE_EVENTS));
        let len = write_events(some, &mut page);
        put(sink, &page[..len])?;
        rest = others;
    }
    Ok(())
}

/// Writes the lines of events at the start of a page and returns their length.
fn write_events(events: &[Event], page: &mut [u8]) -> usize
    requires { 6 * length events.now ≤ length page.old }
    ensures within { result ≤ length page.old }
    ensures lines { take result page.new ≡ event_lines events.now }
{
    let mut at = 0;
    for event in events {
        at = write_event(*event, page, at);
    }
    at
}

/// Writes the line of an event at a place of a page and returns the place after it.
fn write_event(event: Event, page: &mut [u8], at: usize) -> usize
    requires { at + 6 ≤ length page.old }
    ensures within { result ≤ at + 6 }
    ensures line { take result page.new ≡ take at page.old ++ (event_line event ++ codes "\n") }
{
    let (letter, n) = match event {
        Event::Move(slot) => (b's', slot),
        Event::CheckIn(slot) => (b'c', slot),
        Event::Offer(offer) => (b'o', offer),
        Event::Decide(offer) => (b'd', offer),
        Event::Withdraw(offer) => (b'w', offer),
    };
    let mut digits = Buffer::new();
    let at = write_bytes(&[letter, b' '], page, at);
    let at = write_bytes(digits.format(n).as_bytes(), page, at);
    write_bytes(b"\n", page, at)
}

/// Writes bytes at a place of a page and returns the place after them.
fn write_bytes(bytes: &[u8], page: &mut [u8], at: usize) -> usize
    requires { at + length bytes.now ≤ length page.old }
    ensures end { result ≡ at + length bytes.now }
    ensures bytes { take result page.new ≡ take at page.old ++ bytes.now }
{
    let end = at + bytes.len();
    page[at..end].copy_from_slice(bytes);
    end
}
