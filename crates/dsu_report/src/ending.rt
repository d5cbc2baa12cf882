//! How a run ended.
ghost use Rattle.std.specs.Prelude.{◌≡◌};
ghost use Rattle.dsu_io.specs.Causes.{HasCause};
ghost use Rattle.dsu_io.specs.Sinks.{PutAppends};
ghost use Rattle.dsu_report.specs.Endings.{report_text, trap_word};

use dsu_io::{Failed, Sink, put, put_all};
use itoa::Buffer;
use run_types::{Ending, TrapKind};

/// The word that reports a trap.
pub fn trap_word(kind: TrapKind) -> &'static str
    ensures { result.now ≡ trap_word kind }
{
    match kind {
        TrapKind::Overflow => "overflow",
        TrapKind::Divide => "divide",
        TrapKind::Shift => "shift",
        TrapKind::Null => "null",
        TrapKind::Stale => "stale",
        TrapKind::Index => "index",
        TrapKind::Depth => "depth",
        TrapKind::Relock => "relock",
        TrapKind::Unlock => "unlock",
        TrapKind::MutexHeld => "mutex held",
        TrapKind::Join => "join",
    }
}

/// Writes how a run ended. It takes no memory.
pub fn write_ending<S: Sink>(ending: Ending, sink: &mut S) -> Result<(), Failed>
    ensures bytes { PutAppends (S.told sink.old) (S.told sink.new) result (report_text ending) }
    ensures cause { HasCause (S.faults sink.old) (S.faults sink.new) result }
{
    let mut digits = Buffer::new();
    match ending {
        Ending::Finished(value) => {
            put_all(
                sink,
                &[b"# finished ", digits.format(value).as_bytes(), b"\n"],
            )
        }
        Ending::Trap(kind, thread) => {
            let word = trap_word(kind).as_bytes();
            let thread = digits.format(thread).as_bytes();
            put_all(sink, &[b"# trap ", word, b" thread ", thread, b"\n"])
        }
        Ending::Deadlock => put(sink, b"# deadlock\n"),
        Ending::Cut => put(sink, b"# cut\n"),
    }
}
