//! What the lines of `dsu_report` look like, written out by hand, and that its calls succeed where the
//! sink does.

use crate::fixtures::sink_of;
use c_front::FaultKind;
use c_types::TypeKind;
use dsu_report::{
    FaultLine, LineWord, Place, place_of, write_ending, write_fault, write_mutex_wait,
    write_thread_wait,
};
use run_types::{Ending, TrapKind};
use std::alloc::AllocError;

const USAGE: &str = "\
usage: ginseng run FILE [--offer FILE@LINES]... [--workers W] [--moves N] [--objects N] [--engine E] [--journal] [--explain]
       ginseng replay FILE JOURNAL [--offer FILE@LINES]... [--objects N] [--engine E] [--explain]
       ginseng check FILE [--explain]
       ginseng effects FILE [--explain]
       ginseng changes OLD NEW [--explain]
       ginseng gen SEED SIZE [--engine E] [--explain]
       ginseng admits OLD NEW [--explain]
";

/// Faults in the file `d/f.c`, and their lines.
static LINES: [(FaultLine, &str); 28] = [
    (FaultLine::Usage, USAGE),
    (FaultLine::Unread, "d/f.c: read fault\n"),
    (FaultLine::TooLong, "d/f.c: too long\n"),
    (FaultLine::Write, "write fault\n"),
    (FaultLine::Memory, "want of memory\n"),
    (
        FaultLine::Line(1, LineWord::Header),
        "d/f.c: line 1: header\n",
    ),
    (
        FaultLine::Line(20, LineWord::NoEvent),
        "d/f.c: line 20: no event\n",
    ),
    (
        FaultLine::Line(3, LineWord::CannotHappen),
        "d/f.c: line 3: cannot happen\n",
    ),
    (
        FaultLine::Line(u32::MAX, LineWord::NoEvent),
        "d/f.c: line 4294967295: no event\n",
    ),
    (
        FaultLine::Place(1, 9, FaultKind::BadByte),
        "d/f.c:1:9: bad byte\n",
    ),
    (
        FaultLine::Place(10, 1, FaultKind::BadLiteral),
        "d/f.c:10:1: bad literal\n",
    ),
    (
        FaultLine::Place(2, 3, FaultKind::Directive),
        "d/f.c:2:3: directive\n",
    ),
    (
        FaultLine::Place(7, 65_536, FaultKind::TooMany),
        "d/f.c:7:65536: too many tokens\n",
    ),
    (
        FaultLine::Place(1, 1, FaultKind::Syntax),
        "d/f.c:1:1: syntax\n",
    ),
    (
        FaultLine::Place(u32::MAX, u32::MAX, FaultKind::TooDeep),
        "d/f.c:4294967295:4294967295: nested too deep\n",
    ),
    (
        FaultLine::Place(3, 4, FaultKind::Kind(TypeKind::NoMain)),
        "d/f.c:3:4: no main\n",
    ),
    (
        FaultLine::Place(1, 52, FaultKind::Kind(TypeKind::UnknownName)),
        "d/f.c:1:52: unknown name\n",
    ),
    (
        FaultLine::Place(1, 52, FaultKind::Kind(TypeKind::DeclaredTwice)),
        "d/f.c:1:52: declared twice\n",
    ),
    (
        FaultLine::Place(1, 52, FaultKind::Kind(TypeKind::WrongType)),
        "d/f.c:1:52: wrong type\n",
    ),
    (
        FaultLine::Place(1, 52, FaultKind::Kind(TypeKind::WrongCount)),
        "d/f.c:1:52: wrong number of arguments\n",
    ),
    (
        FaultLine::Place(1, 52, FaultKind::Kind(TypeKind::NotPlace)),
        "d/f.c:1:52: not a place\n",
    ),
    (
        FaultLine::Place(1, 52, FaultKind::Kind(TypeKind::OutsideLoop)),
        "d/f.c:1:52: outside a loop\n",
    ),
    (
        FaultLine::Place(1, 52, FaultKind::Kind(TypeKind::BadFormat)),
        "d/f.c:1:52: bad printf format\n",
    ),
    (
        FaultLine::Place(1, 52, FaultKind::Kind(TypeKind::LeavesTransaction)),
        "d/f.c:1:52: leaves a transaction\n",
    ),
    (
        FaultLine::Place(1, 52, FaultKind::Kind(TypeKind::OverLimit)),
        "d/f.c:1:52: over a limit\n",
    ),
    (
        FaultLine::Place(1, 52, FaultKind::Kind(TypeKind::UnknownField)),
        "d/f.c:1:52: unknown field\n",
    ),
    (
        FaultLine::Place(1, 52, FaultKind::Kind(TypeKind::BadTransformer)),
        "d/f.c:1:52: bad transformer\n",
    ),
    (
        FaultLine::Place(1, 52, FaultKind::Kind(TypeKind::NoMain)),
        "d/f.c:1:52: no main\n",
    ),
];

#[test]
fn each_fault_has_its_line(rt: HostRuntime) -> Result<(), AllocError> {
    for (fault, line) in &LINES {
        let mut sink = sink_of(rt.alloc(), 1000, &[])?;
        assert!(rt; write_fault("d/f.c", *fault, &mut sink).is_ok(), "{line}");
        assert!(rt; sink.bytes() == line.as_bytes(), "{line}");
    }
    Ok(())
}

/// Endings, and their reports.
static REPORTS: [(Ending, &str); 16] = [
    (Ending::Finished(0), "# finished 0\n"),
    (Ending::Finished(i32::MAX), "# finished 2147483647\n"),
    (Ending::Finished(i32::MIN), "# finished -2147483648\n"),
    (
        Ending::Trap(TrapKind::Overflow, 0),
        "# trap overflow thread 0\n",
    ),
    (
        Ending::Trap(TrapKind::Divide, 1),
        "# trap divide thread 1\n",
    ),
    (Ending::Trap(TrapKind::Shift, 2), "# trap shift thread 2\n"),
    (Ending::Trap(TrapKind::Null, 3), "# trap null thread 3\n"),
    (Ending::Trap(TrapKind::Stale, 4), "# trap stale thread 4\n"),
    (Ending::Trap(TrapKind::Index, 5), "# trap index thread 5\n"),
    (Ending::Trap(TrapKind::Depth, 6), "# trap depth thread 6\n"),
    (
        Ending::Trap(TrapKind::Relock, 10),
        "# trap relock thread 10\n",
    ),
    (
        Ending::Trap(TrapKind::Unlock, 15),
        "# trap unlock thread 15\n",
    ),
    (
        Ending::Trap(TrapKind::MutexHeld, 99),
        "# trap mutex held thread 99\n",
    ),
    (
        Ending::Trap(TrapKind::Join, u8::MAX),
        "# trap join thread 255\n",
    ),
    (Ending::Deadlock, "# deadlock\n"),
    (Ending::Cut, "# cut\n"),
];

#[test]
fn each_ending_has_its_report(rt: HostRuntime) -> Result<(), AllocError> {
    for (ending, report) in &REPORTS {
        let mut sink = sink_of(rt.alloc(), 100, &[])?;
        assert!(rt; write_ending(*ending, &mut sink).is_ok(), "{report}");
        assert!(rt; sink.bytes() == report.as_bytes(), "{report}");
    }
    Ok(())
}

#[test]
fn a_thread_that_waits_has_its_line(rt: HostRuntime) -> Result<(), AllocError> {
    let mut sink = sink_of(rt.alloc(), 100, &[])?;
    assert!(rt; write_mutex_wait(1, "a", 0, &mut sink).is_ok());
    assert!(rt; sink.bytes() == b"# thread 1 waits for mutex a held by 0\n".as_slice());
    let mut sink = sink_of(rt.alloc(), 100, &[])?;
    assert!(rt; write_thread_wait(0, 15, &mut sink).is_ok());
    assert!(rt; sink.bytes() == b"# thread 0 waits for thread 15\n".as_slice());
    Ok(())
}

/// Both sinks are full before the last word of the line.
#[test]
fn a_full_sink_has_a_prefix_of_a_wait(rt: HostRuntime) -> Result<(), AllocError> {
    let mut sink = sink_of(rt.alloc(), 30, &[])?;
    assert!(rt; write_mutex_wait(1, "a", 0, &mut sink).is_err());
    assert!(rt; sink.bytes() == b"# thread 1 waits for mutex a h".as_slice());
    let mut sink = sink_of(rt.alloc(), 20, &[])?;
    assert!(rt; write_thread_wait(0, 15, &mut sink).is_err());
    assert!(rt; sink.bytes() == b"# thread 0 waits for".as_slice());
    Ok(())
}

const WRONG_COUNT: FaultLine = FaultLine::Place(1, 52, FaultKind::Kind(TypeKind::WrongCount));

/// A sink with room for some bytes takes a prefix of the line, and counts a fault where it isn't all.
#[test]
fn a_failed_write_leaves_a_front(rt: HostRuntime) -> Result<(), AllocError> {
    let line = "d/f.c:1:52: wrong number of arguments\n".as_bytes();
    for room in 0..line.len() + 1 {
        let mut sink = sink_of(rt.alloc(), room, &[])?;
        let is_whole = write_fault("d/f.c", WRONG_COUNT, &mut sink).is_ok();
        assert!(rt; is_whole == (room == line.len()), "at {room}");
        assert!(rt; (sink.faults() == 0) == is_whole, "at {room}");
        assert!(rt; line.starts_with(sink.bytes()), "at {room}");
    }
    Ok(())
}

/// The bytes of `ab\n\n\tc\r\n` and its end, each with its line and column.
static PLACES: [(usize, u32, u32); 9] = [
    (0, 1, 1),
    (1, 1, 2),
    (2, 1, 3),
    (3, 2, 1),
    (4, 3, 1),
    (5, 3, 2),
    (6, 3, 3),
    (7, 3, 4),
    (8, 4, 1),
];

#[test]
fn places_are_counted_from_one(rt: HostRuntime) {
    for (at, line, column) in &PLACES {
        let place = place_of(b"ab\n\n\tc\r\n", *at);
        assert!(rt;
            place
                == Place {
                    line: *line,
                    column: *column
                },
            "at {at}"
        );
    }
    assert!(rt; place_of(b"", 0) == Place { line: 1, column: 1 });
}
