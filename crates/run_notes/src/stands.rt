//! Texts and threads as the notes of an offer need them.
use dsu_io::Sink;
use dsu_runs::Engine;
use offer_drafts::{Frame, RowFrom, SourceText, Thread};
use plain_engine::{PlainEngine, RowOf};
use source_model::OfferAnswer;
use source_runner::{FrameAt, SourceRun};
use std::alloc::{AllocError, Global};
use thread_notes::Source;

/// How many frames a thread may have.
const MOST_FRAMES: usize = 256;

/// A text of a run by its number: 0 is the first one, k that of offer k.
pub(crate) fn text_at<'a, S: Sink>(
    engine: &'a PlainEngine<SourceRun, S>,
    sources: &'a [Source<'a>],
    number: usize,
) -> Option<SourceText<'a>> {
    let source = sources.get(number)?;
    Some(SourceText {
        file: source.file.as_bytes(),
        bytes: source.bytes,
        typed: engine.text(number)?,
    })
}

/// The number of the text that was installed as a version; the first one is version 1.
fn number_of<S: Sink>(engine: &PlainEngine<SourceRun, S>, version: u32) -> usize {
    let answers = engine.answers();
    for index in 0..answers.len() {
        if let OfferAnswer::Installed(number) = &answers[index] {
            if *number == version {
                return index + 1;
            }
        }
    }
    0
}

/// The texts of the versions so far, the first one first.
pub(crate) fn texts_of<'a, S: Sink>(
    alloc: Global,
    engine: &'a PlainEngine<SourceRun, S>,
    sources: &'a [Source<'a>],
) -> Result<Vec<SourceText<'a>>, AllocError> {
    let mut texts = Vec::new(alloc);
    for index in 0..engine.version() {
        if let Some(text) = text_at(engine, sources, number_of(engine, index + 1)) {
            texts.push(text)?;
        }
    }
    Ok(texts)
}

/// Where a frame is.
fn frame_of<'a, S: Sink>(engine: &'a PlainEngine<SourceRun, S>, at: FrameAt) -> Frame<'a> {
    Frame {
        function: engine.word(at.function),
        version: at.version.min(u32::MAX as usize) as u32,
        point: at.point,
    }
}

/// The frames of the thread in a slot, the innermost first.
fn frames_of<'a, S: Sink>(
    alloc: Global,
    engine: &'a PlainEngine<SourceRun, S>,
    slot: u8,
) -> Result<Vec<Frame<'a>>, AllocError> {
    let mut frames = Vec::new(alloc);
    for up in 0..MOST_FRAMES {
        let Some(at) = engine.frame_up(slot, up) else {
            return Ok(frames);
        };
        frames.push(frame_of(engine, at))?;
    }
    Ok(frames)
}

/// The thread in a slot, if one lives there.
pub(crate) fn thread_in<'a, S: Sink>(
    alloc: Global,
    engine: &'a PlainEngine<SourceRun, S>,
    slot: u8,
) -> Result<Option<Thread<'a>>, AllocError> {
    let row = match engine.row_of(slot) {
        RowOf::NoThread => return Ok(None),
        RowOf::Start(function) => RowFrom::Start(engine.word(function)),
        RowOf::Passed(at) => RowFrom::Passed(frame_of(engine, at)),
    };
    Ok(Some(Thread {
        slot,
        row,
        frames: frames_of(alloc, engine, slot)?,
        is_pinned: engine.is_pinned(slot),
    }))
}

/// The live threads, by slot.
pub(crate) fn threads_of<'a, S: Sink>(
    alloc: Global,
    engine: &'a PlainEngine<SourceRun, S>,
) -> Result<Vec<Thread<'a>>, AllocError> {
    let mut threads = Vec::new(alloc);
    for slot in 0..engine.slots() {
        if let Some(thread) = thread_in(alloc, engine, slot)? {
            threads.push(thread)?;
        }
    }
    Ok(threads)
}
