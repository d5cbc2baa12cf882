//! The events of a run, one after the other, and what is noted on the way.
ghost use Rattle.std.specs.Prelude.{All, IfOk, OnOk};
ghost use Rattle.fault_notes.specs.Notes.{AreNotes};

use crate::offers::decision_notes;
use c_types::Typed;
use dsu_io::{NullSink, Sink};
use dsu_runs::Engine;
use plain_engine::PlainEngine;
use run_types::{Ending, Event};
use source_runner::SourceRun;
use std::alloc::{AllocError, Global};
use thread_notes::{MARK, Source, ending_notes};

/// How many offers a run may have.
const MOST_OFFERS: usize = 63;

/// The notes on a run by its events: a text for each offer, in their order, and then those of the lines of its ending.
/// `sources` has the files of the first text and of those that were offered.
pub fn run_notes(
    alloc: Global,
    first: Typed,
    offered: Vec<Typed>,
    lines: Vec<u32>,
    objects: u32,
    sources: &[Source<'_>],
    history: &[Event],
    ending: Ending,
) -> Result<Vec<Vec<u8>>, AllocError>
    ensures { IfOk result (λ all. All (λ notes. AreNotes MARK.now notes.items) all.items) }
{
    if offered.len() != lines.len() || lines.len() > MOST_OFFERS {
        return Ok(Vec::new(alloc));
    }
    let count = lines.len();
    match PlainEngine::new(alloc, first, offered, lines, objects, NullSink::new()) {
        Ok(engine) => {
            let mut engine = engine;
            noted(alloc, &mut engine, sources, count, history, ending)
        }
        Err(_) => Err(AllocError),
    }
}

/// The notes on a run that an engine is at the start of.
fn noted<S: Sink>(
    alloc: Global,
    engine: &mut PlainEngine<SourceRun, S>,
    sources: &[Source<'_>],
    count: usize,
    history: &[Event],
    ending: Ending,
) -> Result<Vec<Vec<u8>>, AllocError>
    ensures { IfOk result (λ all. All (λ notes. AreNotes MARK.now notes.items) all.items) }
{
    let mut notes = no_notes(alloc, MARK, count)?;
    replay(
        alloc,
        MARK,
        engine,
        sources,
        looked_at(history, ending),
        &mut notes,
    )?;
    add_all(&mut notes, ending_notes(alloc, engine, sources, ending)?)?;
    Ok(notes)
}

/// The events after which the ending is looked at: all of them, but a trap is looked at before the move that trapped.
fn looked_at(history: &[Event], ending: Ending) -> &[Event] {
    match ending {
        Ending::Trap(_, _) => &history[..history.len().saturating_sub(1)],
        Ending::Finished(_) | Ending::Deadlock | Ending::Cut => history,
    }
}

/// Makes some events; the decisions among them are noted.
fn replay<S: Sink>(
    alloc: Global,
    mark: &[u8],
    engine: &mut PlainEngine<SourceRun, S>,
    sources: &[Source<'_>],
    events: &[Event],
    notes: &mut Vec<Vec<u8>>,
) -> Result<(), AllocError>
    ensures { All (λ one. AreNotes mark.now one.items) notes.old.items
        → OnOk result (All (λ one. AreNotes mark.now one.items) notes.new.items) }
{
    for event in events {
        make(alloc, mark, engine, sources, *event, notes)?;
    }
    Ok(())
}

/// No notes, for each of so many offers. The mark is that of the notes to come.
fn no_notes(alloc: Global, mark: &[u8], count: usize) -> Result<Vec<Vec<u8>>, AllocError>
    ensures { IfOk result (λ all. All (λ notes. AreNotes mark.now notes.items) all.items) }
{
    let mut all = Vec::new(alloc);
    for _ in 0..count {
        add_none(alloc, mark, &mut all)?;
    }
    Ok(all)
}

/// Adds no notes after others.
#[tactic(auto, using(crate::proofs::NoNotes::no_notes))]
fn add_none(alloc: Global, _mark: &[u8], all: &mut Vec<Vec<u8>>) -> Result<(), AllocError>
    ensures { All (λ notes. AreNotes _mark.now notes.items) all.old.items
        → OnOk result (All (λ notes. AreNotes _mark.now notes.items) all.new.items) }
{
    all.push(Vec::new(alloc))?;
    Ok(())
}

/// Adds some notes after others.
fn add_all(all: &mut Vec<Vec<u8>>, more: Vec<Vec<u8>>) -> Result<(), AllocError>
    ensures { All (λ notes. AreNotes MARK.now notes.items) all.old.items → All (λ notes. AreNotes MARK.now notes.items) more.items
        → OnOk result (All (λ notes. AreNotes MARK.now notes.items) all.new.items) }
{
    let mut more = more;
    all.append(&mut more)
}

/// Makes an event; that of a decision is noted.
fn make<S: Sink>(
    alloc: Global,
    mark: &[u8],
    engine: &mut PlainEngine<SourceRun, S>,
    sources: &[Source<'_>],
    event: Event,
    notes: &mut Vec<Vec<u8>>,
) -> Result<(), AllocError>
    ensures { All (λ notes. AreNotes mark.now notes.items) notes.old.items
        → OnOk result (All (λ notes. AreNotes mark.now notes.items) notes.new.items) }
{
    match event {
        Event::Move(slot) => {
            engine.act(slot)?;
        }
        Event::CheckIn(slot) => {
            engine.check_in(slot);
        }
        Event::Offer(offer) => {
            engine.offer(offer);
        }
        Event::Withdraw(offer) => {
            engine.withdraw(offer);
        }
        Event::Decide(offer) => decide(alloc, mark, engine, sources, offer, notes)?,
    }
    Ok(())
}

/// Decides an offer, and notes what came of it.
fn decide<S: Sink>(
    alloc: Global,
    mark: &[u8],
    engine: &mut PlainEngine<SourceRun, S>,
    sources: &[Source<'_>],
    offer: u8,
    notes: &mut Vec<Vec<u8>>,
) -> Result<(), AllocError>
    ensures { All (λ notes. AreNotes mark.now notes.items) notes.old.items
        → OnOk result (All (λ notes. AreNotes mark.now notes.items) notes.new.items) }
{
    let before = engine.in_force();
    if engine.decide(offer).is_err() {
        return Err(AllocError);
    }
    let place = offer as usize;
    if place == 0 || place > notes.len() {
        return Ok(());
    }
    notes[place - 1] = decision_notes(alloc, mark, engine, sources, offer, before)?;
    Ok(())
}
