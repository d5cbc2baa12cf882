ghost use Rattle.std.specs.Prelude.{◌≡◌, ◌++◌, List as ListOf, length};
ghost use Rattle.dsu_io.specs.Causes.{HasCause};
ghost use Rattle.dsu_io.specs.Sinks.{PutAppends};
ghost use Rattle.source_model.specs.Guards.{Guard, Setup};
ghost use Rattle.source_model.specs.Journals.{answers};
ghost use Rattle.dsu_report.specs.Answers.{answers_text};
ghost use Rattle.dsu_runs.specs.Engines.{waiting_of};
ghost use Rattle.job_answers.specs.Reports.{ending_text, run_text, wait_in, wait_line, waits_text};

use dsu_io::{Failed, List, Sink};
use dsu_journal::print_journal;
use dsu_report::{write_answers, write_ending, write_mutex_wait, write_thread_wait};
use dsu_runs::{Engine, Waiting};
use run_types::{Ending, Event};

/// Writes the report of a run that ended: its journal, where it is asked for, what was answered to the offers of some texts,
/// and its ending. It takes no memory.
pub fn write_run<T: Engine, S: Sink>(
    journal: bool,
    history: &[Event],
    texts: &[List<u8>],
    ending: Ending,
    engine: &T,
    sink: &mut S,
) -> Result<(), Failed>
    ensures bytes { T.asks engine.now → (setup : Setup) (g : Guard) → T.is_at setup g engine.now → length g.seats ≡ length g.world.slots
        → PutAppends (S.told sink.old) (S.told sink.new) result (run_text journal history.now (answers setup g) texts.now ending g.world) }
    ensures cause { HasCause (S.faults sink.old) (S.faults sink.new) result }
{
    if !journal {
        return write_result(texts, ending, engine, sink);
    }
    print_journal(history, sink)?;
    write_result(texts, ending, engine, sink)
}

/// Writes what was answered to the offers of some texts, and the ending.
fn write_result<T: Engine, S: Sink>(
    texts: &[List<u8>],
    ending: Ending,
    engine: &T,
    sink: &mut S,
) -> Result<(), Failed>
    ensures bytes { T.asks engine.now → (setup : Setup) (g : Guard) → T.is_at setup g engine.now → length g.seats ≡ length g.world.slots
        → PutAppends (S.told sink.old) (S.told sink.new) result (answers_text (answers setup g) texts.now ++ ending_text ending g.world) }
    ensures cause { HasCause (S.faults sink.old) (S.faults sink.new) result }
{
    write_answers(engine.answers(), texts, engine.names(), sink)?;
    write_end(ending, engine, sink)
}

/// Writes the report of an ending; that of a deadlock says what each thread waits for.
fn write_end<T: Engine, S: Sink>(ending: Ending, engine: &T, sink: &mut S) -> Result<(), Failed>
    ensures bytes { T.asks engine.now → (setup : Setup) (g : Guard) → T.is_at setup g engine.now → length g.seats ≡ length g.world.slots
        → PutAppends (S.told sink.old) (S.told sink.new) result (ending_text ending g.world) }
    ensures cause { HasCause (S.faults sink.old) (S.faults sink.new) result }
{
    match ending {
        Ending::Deadlock => write_deadlock(engine, sink),
        Ending::Finished(_) | Ending::Trap(_, _) | Ending::Cut => write_ending(ending, sink),
    }
}

/// Writes the report of a deadlock.
fn write_deadlock<T: Engine, S: Sink>(engine: &T, sink: &mut S) -> Result<(), Failed>
    ensures bytes { T.asks engine.now → (setup : Setup) (g : Guard) → T.is_at setup g engine.now → length g.seats ≡ length g.world.slots
        → PutAppends (S.told sink.old) (S.told sink.new) result (ending_text Ending.Deadlock g.world) }
    ensures cause { HasCause (S.faults sink.old) (S.faults sink.new) result }
{
    write_ending(Ending::Deadlock, sink)?;
    write_waits(engine, sink)
}

/// Writes what each thread waits for, by slot.
fn write_waits<T: Engine, S: Sink>(engine: &T, sink: &mut S) -> Result<(), Failed>
    ensures bytes { T.asks engine.now → (setup : Setup) (g : Guard) → T.is_at setup g engine.now → length g.seats ≡ length g.world.slots
        → PutAppends (S.told sink.old) (S.told sink.new) result (waits_text g.world) }
    ensures cause { HasCause (S.faults sink.old) (S.faults sink.new) result }
{
    for slot in 0..engine.slots() {
        write_wait_in(engine, slot, sink)?;
    }
    Ok(())
}

/// Writes what the thread in a slot waits for, if it waits.
fn write_wait_in<T: Engine, S: Sink>(engine: &T, slot: u8, sink: &mut S) -> Result<(), Failed>
    ensures bytes { T.asks engine.now → (setup : Setup) (g : Guard) → T.is_at setup g engine.now
        → PutAppends (S.told sink.old) (S.told sink.new) result (wait_in g.world slot) }
    ensures cause { HasCause (S.faults sink.old) (S.faults sink.new) result }
{
    match engine.waits(slot) {
        Some(waiting) => write_wait(slot, waiting, sink),
        None => Ok(()),
    }
}

/// Writes the line of a thread that waits.
fn write_wait<S: Sink>(slot: u8, waiting: Waiting<'_>, sink: &mut S) -> Result<(), Failed>
    ensures bytes { PutAppends (S.told sink.old) (S.told sink.new) result (wait_line slot (waiting_of waiting.entry)) }
    ensures cause { HasCause (S.faults sink.old) (S.faults sink.new) result }
{
    match waiting {
        Waiting::Mutex(mutex, holder) => write_mutex_wait(slot, mutex, holder, sink),
        Waiting::Thread(joined) => write_thread_wait(slot, joined, sink),
    }
}
