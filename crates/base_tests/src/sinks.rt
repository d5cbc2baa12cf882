//! What sinks take in earnest, and how `put` and `put_all` end where a sink takes little or fails.
ghost use Rattle.std.specs.Prelude.{None};

use dsu_io::{Failed, MemorySink, NullSink, Sink, StdSink, put, put_all};
use std::alloc::{AllocError, Global};
use std::io::{self, ErrorKind, Write};

const TEXT: &[u8] = b"abcde";

/// What is put into a sink.
#[derive(Clone, Copy)]
enum Given {
    /// The text at once.
    Whole,
    /// The text in pieces, of which one is empty.
    Pieces,
    /// Empty pieces.
    Empty,
}

/// Puts it. An empty piece asks for no write. A piece that the sink cuts asks for one more.
fn put_given<S: Sink>(given: Given, sink: &mut S) -> Result<(), Failed> {
    match given {
        Given::Whole => put(sink, TEXT),
        Given::Pieces => put_all(sink, &[b"ab", b"", b"cde"]),
        Given::Empty => put_all(sink, &[b"", b""]),
    }
}

/// What is put, the room of a sink in memory, and its calls that fail, which are counted from 1; how
/// many bytes of the text it holds then, and its faults.
type Put = (Given, usize, [u64; 2], usize, u64);

/// Whether a put ends as listed.
fn ends_as_listed(alloc: Global, row: &Put) -> Result<bool, AllocError> {
    let (given, room, failing, held, faults) = *row;
    let failing = failing.to_vec(alloc)?;
    let mut sink = MemorySink::with_room(alloc, room, failing)?;
    let answer = put_given(given, &mut sink);
    Ok(
        answer.is_ok() == (faults == 0)
            && TEXT.get(..held) == Some(sink.bytes())
            && sink.faults() == faults,
    )
}

static PUTS: [Put; 6] = [
    (Given::Whole, 9, [0, 0], 5, 0),
    (Given::Whole, 5, [0, 2], 5, 0),
    (Given::Whole, 9, [0, 1], 0, 1),
    (Given::Whole, 4, [0, 0], 4, 1),
    (Given::Whole, 4, [0, 2], 4, 1),
    (Given::Whole, 0, [0, 0], 0, 1),
];

#[test]
fn a_put_stops_at_the_first_fault(rt: HostRuntime) {
    for row in &PUTS {
        let ends = ends_as_listed(rt.alloc(), row).expect(&rt, "memory");
        assert!(rt; ends, "room {}", row.1);
    }
}

static PUTS_OF_PIECES: [Put; 7] = [
    (Given::Pieces, 5, [3, 4], 5, 0),
    (Given::Pieces, 5, [0, 1], 0, 1),
    (Given::Pieces, 5, [3, 2], 2, 1),
    (Given::Pieces, 4, [0, 0], 4, 1),
    (Given::Pieces, 2, [0, 0], 2, 1),
    (Given::Pieces, 1, [0, 0], 1, 1),
    (Given::Empty, 0, [0, 1], 0, 0),
];

#[test]
fn a_put_of_pieces_stops_at_the_first_fault(rt: HostRuntime) {
    for row in &PUTS_OF_PIECES {
        let ends = ends_as_listed(rt.alloc(), row).expect(&rt, "memory");
        assert!(rt; ends, "room {}", row.1);
    }
}

/// A sink that takes at most three bytes at a write.
#[derive(Drop)]
struct Trickle {
    bytes: Vec<u8>,
    writes: u64,
    faults: u64,
}

impl Sink for Trickle {
    ghost told = { λ _. None };

    ghost faults = { λ s. s.faults };

    fn write(&mut self, bytes: &[u8]) -> Result<usize, Failed> {
        self.writes = self.writes.saturating_add(1);
        let count = bytes.len().min(3);
        if self.bytes.extend_from_slice(&bytes[..count]).is_err() {
            self.faults = self.faults.saturating_add(1);
            return Err(Failed);
        }
        Ok(count)
    }
}

/// Whether such a sink takes all of some pieces, in so many writes.
fn takes_all(alloc: Global, pieces: &[&[u8]], held: &[u8], writes: u64) -> bool {
    let mut sink = Trickle {
        bytes: Vec::new(alloc),
        writes: 0,
        faults: 0,
    };
    let answer = match pieces {
        [only] => put(&mut sink, only),
        _ => put_all(&mut sink, pieces),
    };
    answer.is_ok() && sink.bytes.as_slice() == held && sink.writes == writes
}

#[test]
fn puts_ask_until_all_is_taken(rt: HostRuntime) {
    assert!(rt; takes_all(rt.alloc(), &[b""], b"", 0));
    assert!(rt; takes_all(rt.alloc(), &[b"abc"], b"abc", 1));
    assert!(rt; takes_all(rt.alloc(), &[b"abcdefg"], b"abcdefg", 3));
    assert!(rt; takes_all(rt.alloc(), &[b"abcd", b"", b"efg"], b"abcdefg", 3));
    assert!(rt; takes_all(rt.alloc(), &[], b"", 0));
}

#[test]
fn null_sink_counts_its_bytes(rt: HostRuntime) {
    let mut sink = NullSink::new();
    assert!(rt; put(&mut sink, b"abc").is_ok());
    assert!(rt; put_given(Given::Pieces, &mut sink).is_ok());
    assert!(rt; sink.written() == 8);
    assert!(rt; NullSink::default().written() == 0);
}

/// What a writer does with each piece.
#[derive(Clone, Copy)]
enum Habit {
    Takes,
    TakesNothing,
    Fails,
}

impl Write for Habit {
    fn write(&mut self, buf: &[u8]) -> io::Result<usize> {
        match self {
            Habit::Takes => Ok(buf.len()),
            Habit::TakesNothing => Ok(0),
            Habit::Fails => Err(io::Error::from(ErrorKind::BrokenPipe)),
        }
    }

    fn flush(&mut self) -> io::Result<()> {
        Ok(())
    }
}

/// How many bytes a sink over a writer says that it took of five and of none, and its faults then.
static HABITS: [(Habit, Option<usize>, Option<usize>, u64); 3] = [
    (Habit::Takes, Some(5), Some(0), 0),
    (Habit::TakesNothing, None, Some(0), 1),
    (Habit::Fails, None, None, 2),
];

#[test]
fn std_sink_counts_refusals(rt: HostRuntime) {
    for (habit, full, empty, faults) in &HABITS {
        let mut sink = StdSink::new(*habit);
        let taken = (sink.write(TEXT).ok(), sink.write(b"").ok());
        assert!(rt;
            taken == (*full, *empty) && sink.faults() == *faults,
            "{faults}"
        );
    }
}

#[test]
fn std_sink_writes_into_its_writer(rt: HostRuntime) {
    let mut sink = StdSink::new(Vec::new(rt.alloc()));
    assert!(rt; put_given(Given::Pieces, &mut sink).is_ok());
    assert!(rt; sink.into_inner().as_slice() == TEXT);
}
