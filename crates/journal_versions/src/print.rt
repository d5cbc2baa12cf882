//! The text of events.
ghost use Rattle.std.specs.Prelude.{◌≡◌, ◌≤◌, ◌<◌, ◌+◌, ◌∷◌, ◌++◌, length, take, codes};
ghost use Rattle.std.specs.Fmt.{decimal};
ghost use Rattle.dsu_io.specs.Causes.{HasCause};
ghost use Rattle.dsu_io.specs.Sinks.{PutAppends};
ghost use Rattle.journal_versions.specs.Journals.{event_line, event_lines, group_line, groups, is_same_move, journal_text};

use dsu_io::{Failed, Sink, put};
use itoa::Buffer;
use run_types::Event;

/// The most bytes of the first line, whose number has at most three digits.
const FIRST_LEN: usize = 22;

/// The most bytes of a line, its newline included: a letter, two spaces, a number of three digits and one of twenty.
const LINE_LEN: usize = 27;

/// The bytes of a page, whose lines are put at once.
const PAGE_LEN: usize = 8192;

/// Prints the journal of a run with so many slots and these events. `Failed`: a prefix of it was appended, and not all. It
/// takes no memory, and puts many lines at once.
pub fn print_journal<S: Sink>(slots: u8, events: &[Event], sink: &mut S) -> Result<(), Failed>
    ensures bytes { PutAppends (S.told sink.old) (S.told sink.new) result (journal_text slots events.now) }
    ensures cause { HasCause (S.faults sink.old) (S.faults sink.new) result }
{
    put_first(slots, sink)?;
    put_events(events, sink)
}

/// Puts the first line.
fn put_first<S: Sink>(slots: u8, sink: &mut S) -> Result<(), Failed>
    ensures bytes { PutAppends (S.told sink.old) (S.told sink.new) result (codes "ginseng-journal 2 " ++ decimal slots ++ codes "\n") }
    ensures cause { HasCause (S.faults sink.old) (S.faults sink.new) result }
{
    let mut line = [0; FIRST_LEN];
    let len = write_first(slots, &mut line);
    put(sink, &line[..len])
}

/// Writes the first line at the start of a page and returns its length.
fn write_first(slots: u8, page: &mut [u8]) -> usize
    requires { FIRST_LEN ≤ length page.old }
    ensures within { result ≤ length page.old }
    ensures line { take result page.new ≡ codes "ginseng-journal 2 " ++ decimal slots ++ codes "\n" }
{
    let mut digits = Buffer::new();
    let at = write_bytes(b"ginseng-journal 2 ", page, 0);
    let at = write_bytes(digits.format(slots).as_bytes(), page, at);
    write_bytes(b"\n", page, at)
}

/// Puts the lines of events, a page at a time.
fn put_events<S: Sink>(events: &[Event], sink: &mut S) -> Result<(), Failed>
    ensures bytes { PutAppends (S.told sink.old) (S.told sink.new) result (event_lines events.now) }
    ensures cause { HasCause (S.faults sink.old) (S.faults sink.new) result }
{
    let mut page = [0; PAGE_LEN];
    let mut rest = events;
    while !rest.is_empty() {
        let (len, others) = write_events(rest, &mut page);
        put(sink, &page[..len])?;
        rest = others;
    }
    Ok(())
}

/// Writes the lines of the first events at the start of a page, as many as it has room for. Gives their length and the events
/// after them.
fn write_events<'a>(events: &'a [Event], page: &mut [u8]) -> (usize, &'a [Event])
    requires some { 0 < length events.now }
    requires room { LINE_LEN ≤ length page.old }
    ensures within { result.0 ≤ length page.old }
    ensures lines { event_lines events.now ≡ take result.0 page.new ++ event_lines result.1.now }
    ensures fewer { length result.1.now < length events.now }
{
    let mut at = 0;
    let mut rest = events;
    while !rest.is_empty() && LINE_LEN <= page.len() - at {
        let (event, times, others) = split_group(rest);
        at = write_line(event, times, page, at);
        rest = others;
    }
    (at, rest)
}

/// The first event and how many times it comes in a row, which is once unless it is a move; and the events after these.
fn split_group(events: &[Event]) -> (Event, usize, &[Event])
    requires { 0 < length events.now }
    ensures groups { groups events.now ≡ (result.0, result.1) ∷ groups result.2.now }
    ensures fewer { length result.2.now < length events.now }
{
    let first = events[0];
    let mut times = 1;
    while times < events.len() && is_same_move(first, events[times]) {
        times += 1;
    }
    (first, times, &events[times..])
}

/// Whether both events are moves, of one thread.
fn is_same_move(first: Event, second: Event) -> bool
    ensures { result ≡ is_same_move first second }
{
    match (first, second) {
        (Event::Move(slot), Event::Move(next)) => slot == next,
        _ => false,
    }
}

/// Writes the line of a group at a place of a page and returns the place after it.
fn write_line(event: Event, times: usize, page: &mut [u8], at: usize) -> usize
    requires { at + LINE_LEN ≤ length page.old }
    ensures some { at < result }
    ensures within { result ≤ at + LINE_LEN }
    ensures line { take result page.new ≡ take at page.old ++ (group_line event times ++ codes "\n") }
{
    let at = write_group(event, times, page, at);
    write_bytes(b"\n", page, at)
}

/// Writes the line of a group without its newline.
fn write_group(event: Event, times: usize, page: &mut [u8], at: usize) -> usize
    requires { at + LINE_LEN ≤ length page.old }
    ensures some { at < result }
    ensures within { result < at + LINE_LEN }
    ensures line { take result page.new ≡ take at page.old ++ group_line event times }
{
    let at = write_event(event, page, at);
    if times == 1 {
        return at;
    }
    let mut digits = Buffer::new();
    let at = write_bytes(b" ", page, at);
    write_bytes(digits.format(times).as_bytes(), page, at)
}

/// Writes the line of an event without its newline.
fn write_event(event: Event, page: &mut [u8], at: usize) -> usize
    requires { at + 5 ≤ length page.old }
    ensures some { at < result }
    ensures within { result ≤ at + 5 }
    ensures line { take result page.new ≡ take at page.old ++ event_line event }
{
    let (letter, n) = match event {
        Event::Move(slot) => (b's', slot),
        Event::CheckIn(slot) => (b'c', slot),
        Event::Offer(offer) => (b'o', offer),
        Event::Decide(offer) => (b'd', offer),
        Event::Withdraw(offer) => (b'w', offer),
    };
    let mut digits = Buffer::new();
    let at = write_bytes(&[letter, b' '], page, at);
    write_bytes(digits.format(n).as_bytes(), page, at)
}

/// Writes bytes at a place of a page and returns the place after them.
fn write_bytes(bytes: &[u8], page: &mut [u8], at: usize) -> usize
    requires { at + length bytes.now ≤ length page.old }
    ensures end { result ≡ at + length bytes.now }
    ensures bytes { take result page.new ≡ take at page.old ++ bytes.now }
{
    let end = at + bytes.len();
    page[at..end].copy_from_slice(bytes);
    end
}
