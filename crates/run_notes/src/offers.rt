//! The notes of a decision.
ghost use Rattle.std.specs.Prelude.{IfOk};
ghost use Rattle.fault_notes.specs.Notes.{AreNotes};

use crate::stands::{text_at, texts_of, thread_in, threads_of};
use con_freeness::Refusal;
use dsu_io::Sink;
use dsu_runs::Engine;
use patch_notes::{add_install_notes, add_no_patch_notes};
use plain_engine::PlainEngine;
use refusal_notes::{Stand, add_refusal_notes};
use source_model::{NotPatch, OfferAnswer};
use source_runner::SourceRun;
use std::alloc::{AllocError, Global};
use thread_notes::Source;

/// The notes of an offer that was just decided; `before` is the number of the text that was in force.
pub(crate) fn decision_notes<S: Sink>(
    alloc: Global,
    mark: &[u8],
    engine: &PlainEngine<SourceRun, S>,
    sources: &[Source<'_>],
    offer: u8,
    before: usize,
) -> Result<Vec<u8>, AllocError>
    ensures { IfOk result (λ notes. AreNotes mark.now notes.items) }
{
    let number = offer as usize;
    let Some(answer) = engine.answers().get(number.wrapping_sub(1)) else {
        return Ok(Vec::new(alloc));
    };
    match answer {
        OfferAnswer::Installed(_) => of_install(alloc, mark, engine, number, before),
        OfferAnswer::Refused(refusal) => of_refusal(alloc, mark, engine, sources, number, *refusal),
        OfferAnswer::NotPatch(cause) => of_no_patch(
            alloc, mark, engine, sources, number, before, cause,
        ),
        OfferAnswer::Withdrawn | OfferAnswer::NotOffered => Ok(Vec::new(alloc)),
    }
}

/// Of an install.
fn of_install<S: Sink>(
    alloc: Global,
    mark: &[u8],
    engine: &PlainEngine<SourceRun, S>,
    number: usize,
    before: usize,
) -> Result<Vec<u8>, AllocError>
    ensures { IfOk result (λ notes. AreNotes mark.now notes.items) }
{
    let mut notes = Vec::new(alloc);
    let Some(old) = engine.text(before) else {
        return Ok(notes);
    };
    let Some(new) = engine.text(number) else {
        return Ok(notes);
    };
    let threads = threads_of(alloc, engine)?;
    add_install_notes(alloc, mark, old, new, &threads, &mut notes)?;
    Ok(notes)
}

/// Of a refusal.
fn of_refusal<S: Sink>(
    alloc: Global,
    mark: &[u8],
    engine: &PlainEngine<SourceRun, S>,
    sources: &[Source<'_>],
    number: usize,
    refusal: Refusal,
) -> Result<Vec<u8>, AllocError>
    ensures { IfOk result (λ notes. AreNotes mark.now notes.items) }
{
    let mut notes = Vec::new(alloc);
    let Some(versions) = engine.versions() else {
        return Ok(notes);
    };
    let Some(offered) = text_at(engine, sources, number) else {
        return Ok(notes);
    };
    let Some(thread) = thread_in(alloc, engine, refusal.slot)? else {
        return Ok(notes);
    };
    let texts = texts_of(alloc, engine, sources)?;
    let stand = Stand {
        versions,
        texts: &texts,
        offered,
    };
    add_refusal_notes(alloc, mark, &stand, &thread, refusal.effect, &mut notes)?;
    Ok(notes)
}

/// Where the text is no patch.
fn of_no_patch<S: Sink>(
    alloc: Global,
    mark: &[u8],
    engine: &PlainEngine<SourceRun, S>,
    sources: &[Source<'_>],
    number: usize,
    before: usize,
    cause: &NotPatch,
) -> Result<Vec<u8>, AllocError>
    ensures { IfOk result (λ notes. AreNotes mark.now notes.items) }
{
    let mut notes = Vec::new(alloc);
    let Some(old) = text_at(engine, sources, before) else {
        return Ok(notes);
    };
    let Some(new) = text_at(engine, sources, number) else {
        return Ok(notes);
    };
    add_no_patch_notes(alloc, mark, engine.version(), &old, &new, cause, &mut notes)?;
    Ok(notes)
}
