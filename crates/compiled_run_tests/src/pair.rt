//! Both machines of some texts, and whether they answer alike.
ghost use Rattle.std.specs.Prelude.{◌<◌, IfOk, length};

use c_front::read_text;
use c_types::Typed;
use compiled_run::CompiledRun;
use run_machine::{Machine, MoveMade, Moved};
use source_runner::{FrameAt, SourceMove, SourceRun, Stepped};
use std::alloc::{AllocError, Global};
use std::test::Fail;

/// How many slots there are, and how many objects may live at once.
pub(crate) const SLOTS: u8 = 4;

pub(crate) const OBJECTS: u32 = 3;

/// The tree of a text, which has no fault.
fn read(alloc: Global, text: &str) -> Result<Typed, Fail> {
    match read_text(alloc, text.as_bytes()) {
        Ok(typed) => Ok(typed),
        Err(_) => Err(Fail::new("a text has a fault")),
    }
}

/// The trees of some texts. There is at least one.
fn read_all(alloc: Global, texts: &[&str]) -> Result<Vec<Typed>, Fail>
    ensures { IfOk result (λ all. 0 < length all.items) }
{
    let mut all = Vec::new(alloc);
    for text in texts {
        all.push(read(alloc, text)?)?;
    }
    if all.is_empty() {
        return Err(Fail::new("there is no text"));
    }
    Ok(all)
}

/// The source machine at the start of the first of some texts.
pub(crate) fn plain_of(alloc: Global, texts: &[&str]) -> Result<SourceRun, Fail> {
    let all = read_all(alloc, texts)?;
    Ok(SourceRun::new(alloc, all, OBJECTS, SLOTS)?)
}

/// Their code at the start.
pub(crate) fn compiled_of(alloc: Global, texts: &[&str]) -> Result<CompiledRun, Fail> {
    let all = read_all(alloc, texts)?;
    match CompiledRun::new(alloc, all, OBJECTS, SLOTS) {
        Ok(run) => Ok(run),
        Err(_) => Err(Fail::new("texts aren't loaded")),
    }
}

/// Whether two frames are at one place.
fn same_frame(plain: &SourceRun, compiled: &CompiledRun, a: FrameAt, b: FrameAt) -> bool {
    plain.word(a.function) == compiled.word(b.function)
        && a.version == b.version
        && a.point == b.point
}

/// The same of two that may be there.
fn same_frames(
    plain: &SourceRun,
    compiled: &CompiledRun,
    a: Option<FrameAt>,
    b: Option<FrameAt>,
) -> bool {
    match (a, b) {
        (Some(a), Some(b)) => same_frame(plain, compiled, a, b),
        (None, None) => true,
        _ => false,
    }
}

/// Whether the thread in a slot enters the same function next, if it enters one.
fn same_enter(plain: &SourceRun, compiled: &CompiledRun, slot: u8) -> bool {
    match (plain.entering(slot), compiled.entering(slot)) {
        (Some(a), Some(b)) => plain.word(a) == compiled.word(b),
        (None, None) => true,
        _ => false,
    }
}

/// Whether the frames of the thread in a slot are at the same places, as far as three calls up.
fn same_calls(plain: &SourceRun, compiled: &CompiledRun, slot: u8) -> bool {
    for up in 0..4usize {
        let a = plain.frame_up(slot, up);
        let b = compiled.frame_up(slot, up);
        if !same_frames(plain, compiled, a, b) {
            return false;
        }
    }
    same_frames(plain, compiled, plain.frame(slot), compiled.frame(slot))
}

/// What is asked of a slot of each run.
fn same_slot(plain: &SourceRun, compiled: &CompiledRun, slot: u8) -> bool {
    plain.is_live(slot) == compiled.is_live(slot)
        && plain.can_move(slot) == compiled.can_move(slot)
        && plain.in_transaction(slot) == compiled.in_transaction(slot)
}

/// What is asked of a thread of a run that isn't over.
fn same_thread(plain: &SourceRun, compiled: &CompiledRun, slot: u8) -> bool {
    plain.waits(slot) == compiled.waits(slot)
        && plain.next_point(slot) == compiled.next_point(slot)
        && same_enter(plain, compiled, slot)
        && same_calls(plain, compiled, slot)
}

/// Whether both answer alike.
pub(crate) fn are_alike(plain: &SourceRun, compiled: &CompiledRun) -> bool {
    if plain.ending() != compiled.ending() {
        return false;
    }
    let is_over = plain.ending().is_some();
    for slot in 0..SLOTS + 1 {
        if !same_slot(plain, compiled, slot) {
            return false;
        }
        if !is_over && !same_thread(plain, compiled, slot) {
            return false;
        }
    }
    !plain.misused() && !compiled.misused()
}

/// The move of the thread in a slot of the source machine, with whether it led to a check-in and whether it started a thread.
fn plain_step(plain: &mut SourceRun, slot: u8) -> Result<Moved, AllocError> {
    let leads = plain.leads(slot);
    let threads = plain.threads();
    match plain.step(SourceMove::Move(slot))? {
        Stepped::CannotMove => Ok(Moved::CannotMove),
        Stepped::Done => Ok(Moved::Done(MoveMade {
            leads,
            starts: plain.threads() != threads,
        })),
    }
}

/// Makes a move of both. Says whether it came to the same.
pub(crate) fn move_alike(
    plain: &mut SourceRun,
    compiled: &mut CompiledRun,
    slot: u8,
) -> Result<bool, AllocError> {
    let a = plain_step(plain, slot)?;
    let b = compiled.step(slot)?;
    Ok(a == b)
}

/// Makes a move of both. Says whether they answer alike, and have printed the same after so many bytes.
pub(crate) fn step(
    plain: &mut SourceRun,
    compiled: &mut CompiledRun,
    slot: u8,
    seen: usize,
) -> Result<bool, AllocError> {
    if !move_alike(plain, compiled, slot)? || !are_alike(plain, compiled) {
        return Ok(false);
    }
    let output = plain.output();
    Ok(seen <= output.len() && &output[seen..] == compiled.output_from(seen))
}
