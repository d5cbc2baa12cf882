//! What the calls answer with ample memory, and where a print ends whose sink fails.
use dsu_io::MemorySink;
use dsu_journal::{JournalFault, print_journal, read_journal};
use run_types::Event;
use std::alloc::{AllocError, Global};

/// Events of each kind, and their journal.
static EVENTS: [Event; 5] = [
    Event::Move(15),
    Event::CheckIn(0),
    Event::Offer(1),
    Event::Decide(63),
    Event::Withdraw(10),
];

const TEXT: &[u8] = b"ginseng-journal 1\ns 15\nc 0\no 1\nd 63\nw 10\n";

/// The room of a sink and its call that fails; how many bytes of the journal it then holds.
static PRINTS: [(usize, u64, usize); 5] = [
    (64, 3, 41),
    (42, 0, 41),
    (64, 1, 0),
    (64, 2, 18),
    (20, 0, 20),
];

/// Whether a print into such a sink ends so.
fn ends_after(alloc: Global, room: usize, failing: u64, held: usize) -> Result<bool, AllocError> {
    let failing = Vec::from_slice(alloc, &[failing])?;
    let mut sink = MemorySink::with_room(alloc, room, failing)?;
    let answer = print_journal(&EVENTS, &mut sink);
    Ok(answer.is_ok() == (held == TEXT.len()) && TEXT.get(..held) == Some(sink.bytes()))
}

#[test]
fn a_print_ends_where_its_sink_fails(rt: HostRuntime) {
    for (room, failing, held) in &PRINTS {
        let ends = ends_after(rt.alloc(), *room, *failing, *held).expect(&rt, "memory");
        assert!(rt; ends, "room {room}");
    }
}

#[test]
fn events_have_the_numbers_of_their_lines(rt: HostRuntime) {
    let text = b"ginseng-journal 1\ns 15\n# a comment\nw 10";
    let events = read_journal(rt.alloc(), text).expect(&rt, "a journal");
    let want = [(2u32, Event::Move(15)), (4, Event::Withdraw(10))];
    assert!(rt; events.as_slice() == want.as_slice());
}

/// Texts that are no journal, and their faults.
static FAULTS: [(&str, JournalFault); 4] = [
    ("", JournalFault::Header),
    ("ginseng-journal 1 \n", JournalFault::Header),
    ("ginseng-journal 1\n\n", JournalFault::NoEvent(2)),
    (
        "ginseng-journal 1\ns 9\n#\nd 99\nx",
        JournalFault::NoEvent(4),
    ),
];

#[test]
fn other_texts_are_faults(rt: HostRuntime) {
    for (text, fault) in &FAULTS {
        assert!(rt; text.len() < 64, "{text}");
        let answer = read_journal(rt.alloc(), text.as_bytes());
        assert!(rt; answer.err() == Some(*fault), "{text}");
    }
}
