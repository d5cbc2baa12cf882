//! What is done with private work on a copy: it is handed out, executed where no machine is, and taken back.
ghost use Rattle.std.specs.Prelude.{◌≡◌, ◌+◌, ◌≤◌, ◌<◌, IfOk, IfSome, IsTrue, List, length, Some, slice_get, ℕ};
ghost use Rattle.c_tree.specs.BareDef.{BareDef};
ghost use Rattle.code_kinds.specs.WellFormed.{most_variables};
ghost use Rattle.thread_state.specs.Frames.{most_words};
ghost use Rattle.thread_state.specs.Heights.{HasHeight};
ghost use Rattle.word_frames.specs.Seen.{IsKept, depth_of, innermost};
ghost use Rattle.code_machine.specs.declared.running.Next.TheVariants.{Continues as ContinuesNext};
ghost use Rattle.code_machine.specs.declared.running.Running.{Running as Slot};
ghost use Rattle.code_machine.specs.Copies.{IsCopyOf, IsNamesake, IsSameCode, IsWorkOf, work_image};
ghost use Rattle.code_machine.specs.Done.{IsDone};
ghost use Rattle.code_machine.specs.Keeping.{SameRun};
ghost use Rattle.code_machine.specs.Kept.{FitsImage, IsDueAt, IsKeptRun};
ghost use Rattle.code_machine.specs.Queries.{IsSettled, IsSettledAt};
ghost use Rattle.code_machine.specs.Seen.{image_of, slot_of};
ghost use Rattle.code_machine.specs.Stops.{SameThread};
ghost use Rattle.code_machine.specs.Versions.{RunsCode};
ghost use Rattle.code_machine.specs.Working.{SameMachine};

use crate::machine::CodeMachine;
use crate::running::{Next, Running, innermost};
use crate::state::RunState;
use crate::work::{Stage, Start, Work};
use code_image::CodeImage;
use fused_code::burst;
use std::alloc::{AllocError, Global};
use std::sync::Arc;
use thread_state::{End, Reached};
use word_frames::{FRAME_WORDS, Frames};

/// How many variables a frame has.
const VARIABLES: usize = 64;

/// Whether the stack has a height at a place.
fn is_height(heights: &[Option<u8>], place: usize, height: usize) -> bool
    ensures { IsTrue result → HasHeight heights.now place height }
{
    if place >= heights.len() {
        return false;
    }
    match heights[place] {
        Some(high) => high as usize == height,
        None => false,
    }
}

/// Executes the private instructions of a frame on a copy of its words; none where it doesn't stand in the code.
fn execute(image: &CodeImage, from: Start, before: &[u64], after: &mut [u64]) -> Option<Reached>
    requires first { length before.now ≡ most_variables + most_words }
    requires second { length after.old ≡ most_variables + most_words }
    ensures long { length after.new ≡ length after.old }
    ensures done { IfSome result (λ r. IsDone image.now from before.now r.end r.place r.height after.new) }
{
    if from.unit as usize >= image.functions.len() {
        return None;
    }
    let function = image.function(from.unit);
    let heights = function.verified.heights.as_slice();
    if !is_height(heights, from.place, from.height) {
        return None;
    }
    after.copy_from_slice(before);
    Some(burst(
        function.ops.as_slice(),
        function.verified.body.code.as_slice(),
        heights,
        VARIABLES,
        after,
        0,
        from.place,
        from.height,
    ))
}

/// Whether two names are the same.
fn is_same_name(a: &str, b: &str) -> bool
    ensures { IsTrue result → a.now ≡ b.now }
{
    a == b
}

impl Work {
    /// Does the work, if some was handed out. It takes time linear in the instructions that it executes, and no memory.
    pub fn advance(&mut self)
        ensures image { work_image self.new ≡ work_image self.old }
    {
        match self.stage {
            Stage::Due => {}
            Stage::Empty | Stage::Done(_) => return,
        }
        self.stage = Stage::Empty;
        let reached = execute(
            &self.image,
            self.from,
            self.before.as_slice(),
            &mut self.after,
        );
        if let Some(reached) = reached {
            self.place = reached.place;
            self.height = reached.height;
            self.stage = Stage::Done(reached.end);
        }
    }

    /// Whether the function that was executed is the one with a number in another image of the same texts.
    fn is_namesake(&self, image: &CodeImage, unit: u32) -> bool
        requires here { unit < length image.now.functions.items }
        ensures { IsTrue result → IsNamesake (work_image self.now) self.now.from.unit image.now unit }
    {
        if self.from.unit as usize >= self.image.functions.len() {
            return false;
        }
        let done = self.image.function(self.from.unit);
        let here = image.function(unit);
        if done.text != here.text {
            return false;
        }
        is_same_name(self.image.word(done.name), image.word(here.name))
    }

    /// How it ended, if what was done is what the innermost of some frames has to do.
    fn end_for(&self, image: &CodeImage, frames: &Frames) -> Option<End>
        requires kept { IsKept frames.now }
        requires frame { 0 < depth_of frames.now }
        requires here { (innermost frames.now).unit < length image.now.functions.items }
        ensures { IfSome result (IsWorkOf image.now frames.now self.now) }
    {
        let Stage::Done(end) = self.stage else {
            return None;
        };
        let frame = innermost(frames);
        if self.from.place != frame.place {
            return None;
        }
        if self.from.height != frame.height {
            return None;
        }
        if !self.is_namesake(image, frame.unit) {
            return None;
        }
        if !frames.is_copied(self.before.as_slice()) {
            return None;
        }
        Some(end)
    }
}

impl Running {
    /// Copies the private work that is due, if some is.
    fn hand_out(&self, work: &mut Work)
        requires kept { IsKept self.now.frames }
        requires some { self.now.next ≡ ContinuesNext → 0 < depth_of self.now.frames }
        ensures image { work_image work.new ≡ work_image work.old }
        ensures given { self.now.next ≡ ContinuesNext → IsCopyOf self.now.frames work.new }
    {
        match self.next {
            Next::Continues => {}
            Next::Enters(_, _) | Next::Stands(_) => return,
        }
        let frame = innermost(&self.frames);
        work.stage = Stage::Due;
        work.from = Start {
            unit: frame.unit,
            place: frame.place,
            height: frame.height,
        };
        self.frames.copy_out(&mut work.before);
    }

    /// Brings the innermost frame on by what was done, if that is what it has to do; else it executes its private instructions.
    fn take_back(&mut self, image: &CodeImage, work: &Work)
        requires fits { FitsImage image.now self.old }
        requires same { IsSameCode image.now (work_image work.now) }
        ensures fits { FitsImage image.now self.new }
        ensures runs { (all : List (List BareDef)) (versions : List ℕ) → RunsCode all versions image.now self.old
            → RunsCode all versions image.now self.new }
        ensures same { SameThread self.old self.new }
        ensures seen { slot_of image.now self.new ≡ slot_of image.now self.old }
        ensures settled { self.new.next ≡ ContinuesNext → ⊥ }
    {
        match self.next {
            Next::Continues => {}
            Next::Enters(_, _) | Next::Stands(_) => return,
        }
        match work.end_for(image, &self.frames) {
            Some(end) => self.bring_on(image, work, end),
            None => self.run_on(image),
        }
    }

    /// Brings the innermost frame on by what was done of its work.
    fn bring_on(&mut self, image: &CodeImage, work: &Work, end: End)
        requires fits { FitsImage image.now self.old }
        requires due { self.old.next ≡ ContinuesNext }
        requires same { IsSameCode image.now (work_image work.now) }
        requires work { IsWorkOf image.now self.old.frames work.now end }
        ensures fits { FitsImage image.now self.new }
        ensures runs { (all : List (List BareDef)) (versions : List ℕ) → RunsCode all versions image.now self.old
            → RunsCode all versions image.now self.new }
        ensures same { SameThread self.old self.new }
        ensures seen { slot_of image.now self.new ≡ slot_of image.now self.old }
        ensures settled { self.new.next ≡ ContinuesNext → ⊥ }
    {
        self.frames
            .copy_in(work.after.as_slice(), work.place, work.height);
        self.next = Next::Stands(end);
    }
}

impl RunState {
    /// The same of the thread in a slot.
    fn take_back(&mut self, image: &CodeImage, slot: u8, work: &Work)
        requires kept { IsKeptRun image.now self.old }
        requires same { IsSameCode image.now (work_image work.now) }
        ensures same { SameRun image.now self.old self.new }
        ensures leaves { self.new.leaves_work ≡ self.old.leaves_work }
        ensures settled { IsDueAt self.new slot → ⊥ }
    {
        let slot = slot as usize;
        if slot >= self.slots.len() {
            return;
        }
        self.slots[slot].take_back(image, work);
    }
}

impl CodeMachine {
    /// Room for the private work of any thread.
    pub fn work(&self, alloc: Global) -> Result<Work, AllocError>
        ensures { IfOk result (λ w. work_image w ≡ image_of self.now) }
    {
        let before = vec![in alloc; 0; FRAME_WORDS]?;
        let after = vec![in alloc; 0; FRAME_WORDS]?;
        Ok(Work {
            image: Arc::try_clone(&self.image)?,
            stage: Stage::Empty,
            from: Start {
                unit: 0,
                place: 0,
                height: 0,
            },
            before,
            place: 0,
            height: 0,
            after,
        })
    }

    /// Copies the private work that is due in a slot, if some is. What the work was before is forgotten.
    pub fn hand_out(&self, slot: u8, work: &mut Work)
        ensures image { work_image work.new ≡ work_image work.old }
        ensures given { (r : Slot) → slice_get self.now.run.slots.items slot ≡ Some r → r.next ≡ ContinuesNext → IsCopyOf r.frames work.new }
    {
        work.stage = Stage::Empty;
        let slot = slot as usize;
        if slot >= self.run.slots.len() {
            return;
        }
        self.run.slots[slot].hand_out(work);
    }

    /// Brings the thread in a slot on by what was done of its private work, if that is the work that it has to do; else does its work here.
    /// The work shares code of the same texts. It takes time linear in the words of a frame, where what was done fits.
    pub fn take_back(&mut self, slot: u8, work: &Work)
        requires { IsSameCode (image_of self.old) (work_image work.now) }
        ensures same { SameMachine self.old self.new }
        ensures here { IsSettledAt self.new slot }
        ensures settled { IsSettled self.old → IsSettled self.new }
    {
        self.run.take_back(&self.image, slot, work);
    }
}
