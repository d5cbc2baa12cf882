//! The lines.
ghost use Rattle.std.specs.Prelude.{◌≡◌, ◌++◌, map};
ghost use Rattle.dsu_io.specs.Causes.{HasCause};
ghost use Rattle.dsu_io.specs.Sinks.{PutAppends};
ghost use Rattle.version_spans.specs.Kept.{span_of};
ghost use Rattle.crosscheck_report.specs.CrosscheckLines.{comparison_line, comparison_status, crosscheck_text, span_line, spans_text};

use dsu_io::{Failed, Sink, put, put_all};
use itoa::Buffer;
use run_crosscheck::Comparison;
use version_spans::Span;

/// The status with which the program ends that compared kept bytes with an output.
pub fn comparison_status(comparison: Comparison) -> u8
    ensures { result ≡ comparison_status comparison }
{
    match comparison {
        Comparison::Agrees => 0,
        Comparison::DiffersAt(_) => 4,
    }
}

/// Writes how kept bytes compare with an output, the lines of an ending, and the versions that the definitions of each
/// transaction share, in the order of the spans. It takes no memory.
pub fn write_crosscheck<S: Sink>(
    comparison: Comparison,
    ending: &[u8],
    spans: &[Span],
    sink: &mut S,
) -> Result<(), Failed>
    ensures bytes { PutAppends (S.told sink.old) (S.told sink.new) result (crosscheck_text comparison ending.now (map span_of spans.now)) }
    ensures cause { HasCause (S.faults sink.old) (S.faults sink.new) result }
{
    write_comparison(comparison, sink)?;
    write_rest(ending, spans, sink)
}

/// Writes what follows the comparison.
fn write_rest<S: Sink>(ending: &[u8], spans: &[Span], sink: &mut S) -> Result<(), Failed>
    ensures bytes { PutAppends (S.told sink.old) (S.told sink.new) result (ending.now ++ spans_text (map span_of spans.now)) }
    ensures cause { HasCause (S.faults sink.old) (S.faults sink.new) result }
{
    put(sink, ending)?;
    write_spans(spans, sink)
}

/// Writes how kept bytes compare with an output.
fn write_comparison<S: Sink>(comparison: Comparison, sink: &mut S) -> Result<(), Failed>
    ensures bytes { PutAppends (S.told sink.old) (S.told sink.new) result (comparison_line comparison) }
    ensures cause { HasCause (S.faults sink.old) (S.faults sink.new) result }
{
    match comparison {
        Comparison::Agrees => put(sink, b"agrees\n"),
        Comparison::DiffersAt(place) => {
            let mut digits = Buffer::new();
            put_all(
                sink,
                &[b"differs at byte ", digits.format(place).as_bytes(), b"\n"],
            )
        }
    }
}

/// Writes the versions that the definitions of each transaction share, in the order of the spans.
fn write_spans<S: Sink>(spans: &[Span], sink: &mut S) -> Result<(), Failed>
    ensures bytes { PutAppends (S.told sink.old) (S.told sink.new) result (spans_text (map span_of spans.now)) }
    ensures cause { HasCause (S.faults sink.old) (S.faults sink.new) result }
{
    for span in spans {
        match write_span(span, sink) {
            Ok(()) => {}
            Err(failed) => return Err(failed),
        }
    }
    Ok(())
}

/// Writes those of one.
fn write_span<S: Sink>(span: &Span, sink: &mut S) -> Result<(), Failed>
    ensures bytes { PutAppends (S.told sink.old) (S.told sink.new) result (span_line (span_of span.now)) }
    ensures cause { HasCause (S.faults sink.old) (S.faults sink.new) result }
{
    let mut threads = Buffer::new();
    let mut firsts = Buffer::new();
    let mut lasts = Buffer::new();
    let thread = threads.format(span.slot).as_bytes();
    let first = firsts.format(span.first).as_bytes();
    let last = lasts.format(span.last).as_bytes();
    put_all(
        sink,
        &[
            b"transaction thread ",
            thread,
            b": versions ",
            first,
            b" to ",
            last,
            b"\n",
        ],
    )
}
