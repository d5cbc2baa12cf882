//! What is asked of the thread in a slot: where its frames are, at which point the innermost one stops next, whether it is in
//! a transaction, which function it enters, and which name its next move uses. Nothing changes here.
ghost use Rattle.std.specs.Prelude.{◌≡◌, ◌∷◌, false, option_map};
ghost use Rattle.c_semantics.specs.Threads.{Frame as SeenFrame};
ghost use Rattle.source_model.specs.Guards.{in_transaction};
ghost use Rattle.source_model.specs.Worlds.{World, in_slot, is_over};
ghost use Rattle.resolved_tree.specs.Nodes.{Table, word};
ghost use Rattle.source_programs.specs.Programs.{name_of, table_of};
ghost use Rattle.source_runner.specs.Frames.{frame_of, frames_of};
ghost use Rattle.source_runner.specs.Machines.{Stands};
ghost use Rattle.source_runner.specs.Queries.{entering_in, innermost, innermost_in, next_point_in, place_at, place_of, place_up, place_up_in, use_due};

use crate::machine::{Machine, use_at};
use crate::thread::{Frame, Next, Slot};
use local_evaluation::Halt;
use resolved_tree::Word;
use source_programs::Name;

/// Where a frame is.
#[derive(Clone, Copy)]
pub struct FrameAt {
    pub function: Word,
    /// The version under which it was entered; the first is 1.
    pub version: usize,
    /// The point at which it last stopped, 0 before its first stop.
    pub point: u32,
}

impl FrameAt {
    /// Where a frame is.
    fn of(frame: &Frame) -> FrameAt
        ensures { (t : Table) → place_at t result ≡ place_of (frame_of t frame.now) }
    {
        FrameAt {
            function: frame.function,
            version: frame.version,
            point: frame.standing,
        }
    }
}

impl Machine {
    /// Whether the thread in a slot is in a transaction.
    pub(crate) fn in_transaction(&self, slot: usize) -> bool
        ensures { (w : World) → Stands self.now w → result ≡ in_transaction (in_slot w slot) }
    {
        match self.slots.get(slot) {
            Some(Slot::Live(thread, _)) => thread.depth > 0,
            _ => false,
        }
    }

    /// Where the innermost frame of the thread in a slot is, if a thread with frames lives there.
    pub(crate) fn innermost(&self, slot: usize) -> Option<FrameAt>
        ensures { (w : World) → Stands self.now w → is_over w ≡ false
            → option_map (place_at (table_of self.now.program)) result ≡ innermost_in (in_slot w slot) }
    {
        match self.slots.get(slot) {
            Some(Slot::Live(_, Next::Halt(frame, _))) => Some(FrameAt::of(frame)),
            Some(Slot::Live(thread, Next::Enter(_))) => last_of(thread.below.as_slice()),
            _ => None,
        }
    }

    /// Where a frame of the thread in a slot is, if it has one so many calls above the innermost.
    pub(crate) fn frame_up(&self, slot: usize, up: usize) -> Option<FrameAt>
        ensures { (w : World) → Stands self.now w → is_over w ≡ false
            → option_map (place_at (table_of self.now.program)) result ≡ place_up_in up (in_slot w slot) }
    {
        match self.slots.get(slot) {
            Some(Slot::Live(thread, Next::Halt(frame, _))) => {
                above(frame, thread.below.as_slice(), up)
            }
            Some(Slot::Live(thread, Next::Enter(_))) => waiting_up(thread.below.as_slice(), up),
            _ => None,
        }
    }

    /// The number of the point at which the innermost frame of the thread in a slot stops next, if it does that next.
    pub(crate) fn next_point(&self, slot: usize) -> Option<u32>
        ensures { (w : World) → Stands self.now w → is_over w ≡ false → result ≡ next_point_in (in_slot w slot) }
    {
        match self.slots.get(slot) {
            Some(Slot::Live(_, Next::Halt(_, Halt::At(_, point)))) => Some(*point),
            _ => None,
        }
    }

    /// The function of the enter that is due of the thread in a slot, if one is.
    pub(crate) fn entering(&self, slot: usize) -> Option<Word>
        ensures { (w : World) → Stands self.now w → is_over w ≡ false
            → option_map (word (table_of self.now.program)) result ≡ entering_in (in_slot w slot) }
    {
        match self.slots.get(slot) {
            Some(Slot::Live(_, Next::Enter(due))) => Some(due.function),
            _ => None,
        }
    }

    /// The name that the next move of the thread in a slot uses, if it uses one.
    pub(crate) fn next_use(&self, slot: usize) -> Option<Name>
        ensures { (w : World) → Stands self.now w → is_over w ≡ false
            → option_map (name_of (table_of self.now.program)) result ≡ use_due (in_slot w slot) }
    {
        match self.slots.get(slot) {
            Some(Slot::Live(_, Next::Enter(due))) => Some(Name::Plain(due.function)),
            Some(Slot::Live(_, Next::Halt(_, Halt::At(stop, _)))) => use_at(*stop),
            _ => None,
        }
    }
}

/// Where the innermost of the frames that wait is.
fn last_of(below: &[Frame]) -> Option<FrameAt>
    ensures { (t : Table) → option_map (place_at t) result ≡ innermost (frames_of t below.now) }
{
    match below {
        [.., frame] => Some(FrameAt::of(frame)),
        [] => None,
    }
}

/// Where a frame of those that wait is, counted from the innermost.
fn waiting_up(below: &[Frame], up: usize) -> Option<FrameAt>
    ensures { (t : Table) → option_map (place_at t) result ≡ place_up (frames_of t below.now) up }
{
    if up >= below.len() {
        return None;
    }
    Some(FrameAt::of(&below[below.len() - 1 - up]))
}

/// The same of a frame and those that wait for it.
fn above(frame: &Frame, below: &[Frame], up: usize) -> Option<FrameAt>
    ensures { (t : Table) → option_map (place_at t) result ≡ place_up (frame_of t frame.now ∷ frames_of t below.now) up }
{
    if up == 0 {
        return Some(FrameAt::of(frame));
    }
    waiting_up(below, up - 1)
}
