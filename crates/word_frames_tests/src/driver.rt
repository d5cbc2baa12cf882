//! Runs a function to the end of its first frame.
ghost use Rattle.word_frames.specs.Seen.{IsKept};

use crate::codes::{go_on, instruction, unit_of};
use bytecode::Instr;
use local_evaluation::Stop;
use resolved_tree::Word;
use std::alloc::Global;
use thread_state::End;
use word_frames::{Frames, MOST_FRAMES};

/// How a run ends.
#[derive(Clone, Copy, Debug, PartialEq, Eq)]
pub enum Ending {
    /// The first frame returned a word.
    Returned(u64),
    /// There is no room for one more frame.
    TooDeep,
    /// Something that these functions don't do.
    Lost,
}

/// Runs a function with one argument, or without one, in a thread that starts.
pub fn run(alloc: Global, frames: &mut Frames, number: u32, argument: Option<u64>) -> Ending
    requires { IsKept frames.old }
    ensures { IsKept frames.new }
{
    frames.start(argument.unwrap_or(0));
    if argument.is_none() {
        frames.enter(Word(0), 1, number, 0);
    } else {
        frames.enter(Word(0), 1, number, 1);
    }
    if go_on(alloc, frames, unit_of(number), 0, 1, 0).is_none() {
        return Ending::Lost;
    }
    for _ in 0..2000 {
        if let Some(ending) = turn(alloc, frames) {
            return ending;
        }
    }
    Ending::Lost
}

/// Makes the innermost frame's stop, and goes on; an ending where the run ends.
fn turn(alloc: Global, frames: &mut Frames) -> Option<Ending>
    requires { IsKept frames.old }
    ensures { IsKept frames.new }
{
    let Some(frame) = frames.innermost() else {
        return Some(Ending::Lost);
    };
    match instruction(unit_of(frame.unit), frame.place) {
        Some(Instr::Halt(Stop::Call(Word(function), count), point)) => {
            call(alloc, frames, function, count, point, frame.place)
        }
        Some(Instr::Halt(Stop::Return, _)) => give(alloc, frames),
        _ => Some(Ending::Lost),
    }
}

/// A call at a point and a place: the innermost frame waits, and the function is entered.
fn call(
    alloc: Global,
    frames: &mut Frames,
    function: usize,
    count: usize,
    point: u32,
    place: usize,
) -> Option<Ending>
    requires { IsKept frames.old }
    ensures { IsKept frames.new }
{
    if frames.depth() >= MOST_FRAMES {
        return Some(Ending::TooDeep);
    }
    if frames.depth() == 0 || count > 64 || frames.stack().1 < count || place > 100 {
        return Some(Ending::Lost);
    }
    let number = if function == 1 { 1 } else { 2 };
    frames.wait(count, point, place + 1);
    frames.enter(Word(function), 1, number, count);
    ended(go_on(alloc, frames, unit_of(number), 0, 1, 0))
}

/// A return: the word is the thread's, or the frame that called goes on with it.
fn give(alloc: Global, frames: &mut Frames) -> Option<Ending>
    requires { IsKept frames.old }
    ensures { IsKept frames.new }
{
    let depth = frames.depth();
    if depth == 0 || frames.stack().1 == 0 {
        return Some(Ending::Lost);
    }
    if depth == 1 {
        return Some(Ending::Returned(frames.newest()));
    }
    if frames.frames[depth - 2].height >= frames.highest_stack {
        return Some(Ending::Lost);
    }
    frames.leave();
    let Some(frame) = frames.innermost() else {
        return Some(Ending::Lost);
    };
    ended(go_on(
        alloc,
        frames,
        unit_of(frame.unit),
        frame.point,
        frame.place,
        frame.height,
    ))
}

/// A trap, and a frame that didn't go on, end a run.
fn ended(end: Option<End>) -> Option<Ending> {
    match end {
        Some(End::Rests) => None,
        _ => Some(Ending::Lost),
    }
}
