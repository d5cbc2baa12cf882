//! What threads wait for after a deadlock.
ghost use Rattle.dsu_io.specs.Causes.{HasCause};
ghost use Rattle.dsu_io.specs.Sinks.{PutAppends};
ghost use Rattle.dsu_report.specs.Waits.{mutex_wait_line, thread_wait_line};

use dsu_io::{Failed, Sink, put_all};
use itoa::Buffer;

/// Writes that the thread in a slot waits for a mutex, which the thread in another slot holds. It takes no memory.
pub fn write_mutex_wait<S: Sink>(
    thread: u8,
    mutex: &str,
    holder: usize,
    sink: &mut S,
) -> Result<(), Failed>
    ensures bytes { PutAppends (S.told sink.old) (S.told sink.new) result (mutex_wait_line thread mutex.now holder) }
    ensures cause { HasCause (S.faults sink.old) (S.faults sink.new) result }
{
    let mut threads = Buffer::new();
    let mut holders = Buffer::new();
    let thread = threads.format(thread).as_bytes();
    let holder = holders.format(holder).as_bytes();
    put_all(
        sink,
        &[
            b"# thread ",
            thread,
            b" waits for mutex ",
            mutex.as_bytes(),
            b" held by ",
            holder,
            b"\n",
        ],
    )
}

/// Writes that the thread in a slot waits for the end of the thread in another. It takes no memory.
pub fn write_thread_wait<S: Sink>(thread: u8, joined: usize, sink: &mut S) -> Result<(), Failed>
    ensures bytes { PutAppends (S.told sink.old) (S.told sink.new) result (thread_wait_line thread joined) }
    ensures cause { HasCause (S.faults sink.old) (S.faults sink.new) result }
{
    let mut threads = Buffer::new();
    let mut joineds = Buffer::new();
    let thread = threads.format(thread).as_bytes();
    let joined = joineds.format(joined).as_bytes();
    put_all(
        sink,
        &[b"# thread ", thread, b" waits for thread ", joined, b"\n"],
    )
}
