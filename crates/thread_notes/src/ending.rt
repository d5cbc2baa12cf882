//! The notes of an ending.
ghost use Rattle.std.specs.Prelude.{All, IfOk, OnOk};
ghost use Rattle.fault_notes.specs.Notes.{AreNotes};

use crate::line::add_number;
use crate::places::Places;
use crate::source::Source;
use crate::thread::add_thread;
use dsu_io::Sink;
use dsu_runs::{Engine, Stands};
use fault_notes::add_line;
use plain_engine::PlainEngine;
use run_types::Ending;
use source_runner::SourceRun;
use std::alloc::{AllocError, Global};

/// What each line of the notes of an ending begins with.
pub const MARK: &[u8] = b"#   ";

/// The notes of an ending, in the order of the lines that they follow: of a deadlock those of each thread that waits, by slot;
/// of a trap those of the thread that trapped; of a run that was cut off those of all threads that live, by slot, each after a
/// line with its slot; none of a run that finished. The engine is at the end of the run, but where a thread trapped it is
/// before the move that trapped.
pub fn ending_notes<S: Sink>(
    alloc: Global,
    engine: &PlainEngine<SourceRun, S>,
    sources: &[Source<'_>],
    ending: Ending,
) -> Result<Vec<Vec<u8>>, AllocError>
    ensures { IfOk result (λ all. All (λ notes. AreNotes MARK.now notes.items) all.items) }
{
    let mut places = Places::new(alloc, sources.len())?;
    match ending {
        Ending::Finished(_) => Ok(Vec::new(alloc)),
        Ending::Trap(_, slot) => {
            let notes = notes_of(alloc, MARK, engine, sources, &mut places, slot)?;
            Ok(vec![in alloc; notes]?)
        }
        Ending::Deadlock => waits_notes(alloc, MARK, engine, sources, &mut places),
        Ending::Cut => {
            let notes = live_notes(alloc, MARK, engine, sources, &mut places)?;
            Ok(vec![in alloc; notes]?)
        }
    }
}

/// The notes of the thread in a slot.
#[tactic(auto, using(crate::proofs::NoNotes::no_notes))]
fn notes_of<S: Sink>(
    alloc: Global,
    mark: &[u8],
    engine: &PlainEngine<SourceRun, S>,
    sources: &[Source<'_>],
    places: &mut Places,
    slot: u8,
) -> Result<Vec<u8>, AllocError>
    ensures { IfOk result (λ notes. AreNotes mark.now notes.items) }
{
    let mut notes = Vec::new(alloc);
    add_thread(&mut notes, mark, engine, sources, places, slot)?;
    Ok(notes)
}

/// Those of each thread that waits, by slot.
fn waits_notes<S: Sink>(
    alloc: Global,
    mark: &[u8],
    engine: &PlainEngine<SourceRun, S>,
    sources: &[Source<'_>],
    places: &mut Places,
) -> Result<Vec<Vec<u8>>, AllocError>
    ensures { IfOk result (λ all. All (λ notes. AreNotes mark.now notes.items) all.items) }
{
    let mut all = Vec::new(alloc);
    for slot in 0..engine.slots() {
        add_if_waiting(&mut all, mark, engine, sources, places, slot)?;
    }
    Ok(all)
}

/// Adds those of the thread in a slot, if it waits.
fn add_if_waiting<S: Sink>(
    all: &mut Vec<Vec<u8>>,
    mark: &[u8],
    engine: &PlainEngine<SourceRun, S>,
    sources: &[Source<'_>],
    places: &mut Places,
    slot: u8,
) -> Result<(), AllocError>
    ensures { All (λ notes. AreNotes mark.now notes.items) all.old.items
        → OnOk result (All (λ notes. AreNotes mark.now notes.items) all.new.items) }
{
    if engine.waits(slot).is_none() {
        return Ok(());
    }
    let notes = notes_of(*all.allocator(), mark, engine, sources, places, slot)?;
    all.push(notes)?;
    Ok(())
}

/// Those of all threads that live, by slot.
#[tactic(auto, using(crate::proofs::NoNotes::no_notes))]
fn live_notes<S: Sink>(
    alloc: Global,
    mark: &[u8],
    engine: &PlainEngine<SourceRun, S>,
    sources: &[Source<'_>],
    places: &mut Places,
) -> Result<Vec<u8>, AllocError>
    ensures { IfOk result (λ notes. AreNotes mark.now notes.items) }
{
    let mut notes = Vec::new(alloc);
    for slot in 0..engine.slots() {
        add_if_live(&mut notes, mark, engine, sources, places, slot)?;
    }
    Ok(notes)
}

/// Adds a line with a slot and those of its thread, if one lives there.
fn add_if_live<S: Sink>(
    notes: &mut Vec<u8>,
    mark: &[u8],
    engine: &PlainEngine<SourceRun, S>,
    sources: &[Source<'_>],
    places: &mut Places,
    slot: u8,
) -> Result<(), AllocError>
    ensures { AreNotes mark.now notes.old.items → OnOk result (AreNotes mark.now notes.new.items) }
{
    if engine.stands(slot) == Stands::NoThread {
        return Ok(());
    }
    let mut line = Vec::new(*notes.allocator());
    line.extend_from_slice(b"thread ")?;
    add_number(&mut line, slot as usize)?;
    add_line(notes, mark, &line)?;
    add_thread(notes, mark, engine, sources, places, slot)
}
