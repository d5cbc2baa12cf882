//! The lines of a thread.
ghost use Rattle.std.specs.Prelude.{OnOk};
ghost use Rattle.fault_notes.specs.Notes.{AreNotes};

use crate::calls::{Call, Calls, calls_of};
use crate::line::{add_number, call_line};
use crate::places::Places;
use crate::source::Source;
use dsu_io::Sink;
use fault_notes::add_line;
use plain_engine::PlainEngine;
use source_runner::SourceRun;
use std::alloc::AllocError;

/// Adds where the thread in a slot is, in a run that isn't over: at most eight lines for its calls, the innermost first, and
/// one that counts the others. `sources` has the file of each text, by its number; `places` is that of the run.
pub fn add_thread<S: Sink>(
    text: &mut Vec<u8>,
    mark: &[u8],
    engine: &PlainEngine<SourceRun, S>,
    sources: &[Source<'_>],
    places: &mut Places,
    slot: u8,
) -> Result<(), AllocError>
    ensures { AreNotes mark.now text.old.items → OnOk result (AreNotes mark.now text.new.items) }
{
    let calls = calls_of(*text.allocator(), engine, slot)?;
    find_places(engine, places, &calls)?;
    add_calls(text, mark, sources, places, calls.shown.as_slice())?;
    add_more(text, mark, calls.more)
}

/// Finds the places of the texts of some calls.
fn find_places<S: Sink>(
    engine: &PlainEngine<SourceRun, S>,
    places: &mut Places,
    calls: &Calls<'_>,
) -> Result<(), AllocError> {
    let alloc = *calls.shown.allocator();
    for call in calls.shown.as_slice() {
        if let Some(text) = engine.text(call.text) {
            places.find(alloc, call.text, text)?;
        }
    }
    Ok(())
}

/// Adds the lines of some calls.
fn add_calls(
    text: &mut Vec<u8>,
    mark: &[u8],
    sources: &[Source<'_>],
    places: &Places,
    calls: &[Call<'_>],
) -> Result<(), AllocError>
    ensures { AreNotes mark.now text.old.items → OnOk result (AreNotes mark.now text.new.items) }
{
    for call in calls {
        add_call(text, mark, sources, places, *call)?;
    }
    Ok(())
}

/// Adds the line of a call.
fn add_call(
    text: &mut Vec<u8>,
    mark: &[u8],
    sources: &[Source<'_>],
    places: &Places,
    call: Call<'_>,
) -> Result<(), AllocError>
    ensures { AreNotes mark.now text.old.items → OnOk result (AreNotes mark.now text.new.items) }
{
    let line = call_line(*text.allocator(), sources, places, call)?;
    add_line(text, mark, &line)
}

/// Adds how many calls aren't shown, if there are any.
fn add_more(text: &mut Vec<u8>, mark: &[u8], more: usize) -> Result<(), AllocError>
    ensures { AreNotes mark.now text.old.items → OnOk result (AreNotes mark.now text.new.items) }
{
    if more == 0 {
        return Ok(());
    }
    let mut line = Vec::new(*text.allocator());
    line.extend_from_slice(b"and ")?;
    add_number(&mut line, more)?;
    line.extend_from_slice(if more == 1 {
        b" more call"
    } else {
        b" more calls"
    })?;
    add_line(text, mark, &line)
}
