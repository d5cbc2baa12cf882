//! The calls of a thread.
use dsu_io::Sink;
use dsu_runs::Engine;
use plain_engine::PlainEngine;
use resolved_tree::Word;
use source_model::OfferAnswer;
use source_runner::{FrameAt, SourceRun};
use std::alloc::{AllocError, Global};

/// How a call goes on.
#[derive(Clone, Copy, Debug, PartialEq, Eq)]
pub(crate) enum Standing {
    /// It stops next at its point.
    At,
    /// It last passed its point, and traps before the next one.
    After,
    /// It is entered next.
    Entering,
    /// It waits for a call that it made at its point.
    Calling,
}

/// A call of a thread.
#[derive(Clone, Copy)]
pub(crate) struct Call<'a> {
    pub standing: Standing,
    pub function: &'a str,
    pub version: usize,
    /// The number of the text of its version.
    pub text: usize,
    /// The number of its point in the function.
    pub point: u32,
}

/// The calls of a thread that notes show, the innermost first, and how many more there are.
#[derive(Drop)]
pub(crate) struct Calls<'a> {
    pub shown: Vec<Call<'a>>,
    pub more: usize,
}

/// Of a thread at most so many calls are shown.
const MOST_SHOWN: usize = 8;

/// A thread has at most so many frames.
const MOST_FRAMES: usize = 256;

/// The calls of the thread in a slot.
pub(crate) fn calls_of<S: Sink>(
    alloc: Global,
    engine: &PlainEngine<SourceRun, S>,
    slot: u8,
) -> Result<Calls<'_>, AllocError> {
    let mut shown = Vec::new(alloc);
    if let Some(function) = engine.entering(slot) {
        shown.push(entered(engine, function))?;
    }
    let frames = MOST_SHOWN.saturating_sub(shown.len());
    for up in 0..frames {
        if let Some(frame) = engine.frame_up(slot, up) {
            shown.push(call_of(engine, slot, up, frame))?;
        }
    }
    let more = depth(engine, slot).saturating_sub(frames);
    Ok(Calls { shown, more })
}

/// How many frames the thread in a slot has.
fn depth<S: Sink>(engine: &PlainEngine<SourceRun, S>, slot: u8) -> usize {
    for up in 0..MOST_FRAMES {
        if engine.frame_up(slot, up).is_none() {
            return up;
        }
    }
    MOST_FRAMES
}

/// The call of a function that is entered, in the version in force.
fn entered<S: Sink>(engine: &PlainEngine<SourceRun, S>, function: Word) -> Call<'_> {
    Call {
        standing: Standing::Entering,
        function: engine.word(function),
        version: engine.version() as usize,
        text: engine.in_force(),
        point: 0,
    }
}

/// The call of a frame that is so many calls above the innermost one of the thread in a slot.
fn call_of<S: Sink>(
    engine: &PlainEngine<SourceRun, S>,
    slot: u8,
    up: usize,
    frame: FrameAt,
) -> Call<'_> {
    if up > 0 || engine.entering(slot).is_some() {
        return call_at(engine, Standing::Calling, frame, frame.point);
    }
    match engine.next_point(slot) {
        Some(point) => call_at(engine, Standing::At, frame, point),
        None => call_at(engine, Standing::After, frame, frame.point),
    }
}

/// The call of a frame at a point.
fn call_at<S: Sink>(
    engine: &PlainEngine<SourceRun, S>,
    standing: Standing,
    frame: FrameAt,
    point: u32,
) -> Call<'_> {
    Call {
        standing,
        function: engine.word(frame.function),
        version: frame.version,
        text: text_of(engine.answers(), frame.version),
        point,
    }
}

/// The number of the text of a version: that of the offer that was installed as this version; else the first text, 0.
fn text_of(answers: &[OfferAnswer], version: usize) -> usize {
    for place in 0..answers.len() {
        if is_installed_as(&answers[place], version) {
            return place + 1;
        }
    }
    0
}

/// Whether an offer was installed as a version.
fn is_installed_as(answer: &OfferAnswer, version: usize) -> bool {
    match answer {
        OfferAnswer::Installed(number) => *number as usize == version,
        OfferAnswer::Refused(_)
        | OfferAnswer::NotPatch(_)
        | OfferAnswer::Withdrawn
        | OfferAnswer::NotOffered => false,
    }
}
