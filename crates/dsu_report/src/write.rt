//! The lines.
ghost use Rattle.std.specs.Prelude.{◌++◌, codes};
ghost use Rattle.dsu_io.specs.Causes.{HasCause};
ghost use Rattle.dsu_io.specs.Sinks.{PutAppends};
ghost use Rattle.dsu_report.specs.Faults.{fault_line};

use crate::fault::{FaultLine, words_at_place, words_in_line};
use dsu_io::{Failed, Sink, put, put_all};
use itoa::Buffer;

/// What standard error has where the words name no command.
pub const USAGE: &str = "\
usage: ginseng run FILE [--offer FILE@LINES]... [--workers W] [--moves N] [--objects N] [--engine E] [--journal] [--explain]
       ginseng replay FILE JOURNAL [--offer FILE@LINES]... [--objects N] [--engine E] [--explain]
       ginseng check FILE [--explain]
       ginseng effects FILE [--explain]
       ginseng changes OLD NEW [--explain]
       ginseng gen SEED SIZE [--engine E] [--explain]
       ginseng admits OLD NEW [--explain]
";

/// Writes the line of a fault at a place.
fn put_place<'a, S: Sink>(
    file: &'a [u8],
    line: &'a [u8],
    column: &'a [u8],
    words: &'a [u8],
    sink: &mut S,
) -> Result<(), Failed>
    ensures bytes { PutAppends (S.told sink.old) (S.told sink.new) result
        (file.now ++ codes ":" ++ line.now ++ codes ":" ++ column.now ++ codes ": " ++ words.now ++ codes "\n") }
    ensures cause { HasCause (S.faults sink.old) (S.faults sink.new) result }
{
    put_all(sink, &[file, b":", line, b":", column, b": ", words, b"\n"])
}

/// Writes the line of a fault in a line.
fn put_line<'a, S: Sink>(
    file: &'a [u8],
    line: &'a [u8],
    words: &'a [u8],
    sink: &mut S,
) -> Result<(), Failed>
    ensures bytes { PutAppends (S.told sink.old) (S.told sink.new) result
        (file.now ++ codes ": line " ++ line.now ++ codes ": " ++ words.now ++ codes "\n") }
    ensures cause { HasCause (S.faults sink.old) (S.faults sink.new) result }
{
    put_all(sink, &[file, b": line ", line, b": ", words, b"\n"])
}

/// Writes a fault's line, or the usage text. `file` is the name of the file at fault; `Usage`, `Write`
/// and `Memory` don't use it. It takes no memory.
pub fn write_fault<S: Sink>(file: &str, fault: FaultLine, sink: &mut S) -> Result<(), Failed>
    ensures bytes { PutAppends (S.told sink.old) (S.told sink.new) result (fault_line fault file.now) }
    ensures cause { HasCause (S.faults sink.old) (S.faults sink.new) result }
{
    let file = file.as_bytes();
    match fault {
        FaultLine::Usage => put(sink, USAGE.as_bytes()),
        FaultLine::Place(line, column, word) => {
            let mut lines = Buffer::new();
            let mut columns = Buffer::new();
            let line = lines.format(line).as_bytes();
            let column = columns.format(column).as_bytes();
            put_place(file, line, column, words_at_place(word).as_bytes(), sink)
        }
        FaultLine::Unread => put_all(sink, &[file, b": read fault\n"]),
        FaultLine::TooLong => put_all(sink, &[file, b": too long\n"]),
        FaultLine::Line(line, word) => {
            let mut lines = Buffer::new();
            let line = lines.format(line).as_bytes();
            put_line(file, line, words_in_line(word).as_bytes(), sink)
        }
        FaultLine::Write => put(sink, b"write fault\n"),
        FaultLine::Memory => put(sink, b"want of memory\n"),
    }
}
