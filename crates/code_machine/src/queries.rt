//! What is asked of a run. `is_live` and `in_transaction` hold of each; so do the others, but where a thread has trapped they say where it
//! was then.
ghost use Rattle.std.specs.Prelude.{◌≡◌, ◌<◌, [], ◌∷◌, List, MatchOption, None, false, length, option_map, slice_get, ℕ};
ghost use Rattle.c_tree.specs.BareDef.{BareDef};
ghost use Rattle.source_model.specs.Waits.{held_by};
ghost use Rattle.resolved_tree.specs.Nodes.{Table, word};
ghost use Rattle.local_evaluation.specs.Pieces.{stop_of};
ghost use Rattle.code_runs.specs.CodeData.{Names};
ghost use Rattle.code_runs.specs.CodeThreads.{CodeFrame, CodeWorld as World, Live as IsLive};
ghost use Rattle.code_runs.specs.CodeWaits.{at_stop, in_slot, joined, joined_from};
ghost use Rattle.word_data.specs.declared.stop.SharedStop.TheVariants.{Lock as LockStop};
ghost use Rattle.word_frames.specs.Seen.{IsKept, depth_of, frames_below, innermost, stack_of};
ghost use Rattle.code_image.specs.declared.act.Act.TheVariants.{Shared as SharedAct};
ghost use Rattle.code_image.specs.Acts.{Acts, named};
ghost use Rattle.code_image.specs.Images.{names_in};
ghost use Rattle.code_machine.specs.Kept.{FitsImage};
ghost use Rattle.code_machine.specs.Versions.{IsMachineOf, RunsCode, texts_by, texts_of};
ghost use Rattle.code_machine.specs.Seen.{code_world, finish_of, image_of, thread_of, words_of};
ghost use Rattle.code_machine.specs.declared.running.Next.TheVariants.{Continues as ContinuesNext};
ghost use Rattle.code_machine.specs.Queries.{HasNoStop, IsHeld, IsNextStop, IsSettledAt, LivesIn, NeverWaits, RestsIn, WaitsFor, entered_by, entering_in, frames_in, in_transaction, is_live, place_of, place_seen, waiting_of};

use crate::machine::CodeMachine;
use crate::running::{Next, Running, Stand, innermost};
use crate::state::Finish;
use crate::thread_stops::live_slot;
use code_image::{Act, CodeImage, StopPlace};
use local_evaluation::Stop;
use resolved_tree::Word;
use thread_state::End;
use word_data::SharedStop;
use word_frames::Frame;

/// Where a frame is.
#[derive(Clone, Copy, PartialEq, Eq)]
pub struct FramePlace {
    pub function: Word,
    /// The version under which it was entered.
    pub version: usize,
    /// The number of the point at which it last stopped, 0 before its first stop.
    pub point: u32,
}

/// What a thread waits for.
#[derive(Clone, Copy)]
pub enum CodeWait {
    /// The mutex of a name, which the thread in a slot holds.
    Mutex(Word, u8),
    /// The thread in a slot, which it joins.
    Thread(u8),
}

/// Where the frame is that is so many calls above the innermost, which is the last one here.
fn place_up(frames: &[Frame], up: usize) -> Option<FramePlace>
    ensures { (t : Table) (highest : ℕ) (words : List ℕ) → option_map (place_seen t) result
        ≡ option_map place_of (slice_get (frames_below t highest words frames.now (length frames.now)) up) }
{
    if up >= frames.len() {
        return None;
    }
    let frame = frames[frames.len() - 1 - up];
    Some(FramePlace {
        function: frame.function,
        version: frame.version as usize,
        point: frame.point,
    })
}

/// A mutex that another thread holds.
fn held_by(slot: u8, holder: Option<u8>, name: Word) -> Option<CodeWait>
    ensures { (t : Table) → option_map (waiting_of t) result ≡ held_by (word t name) slot holder }
{
    match holder {
        Some(holder) => {
            if holder == slot {
                return None;
            }
            Some(CodeWait::Mutex(name, holder))
        }
        None => None,
    }
}

/// The word with a number.
fn word_at(words: &[Word], n: u32) -> Option<Word>
    ensures { result ≡ slice_get words.now n }
{
    words.get(n as usize).copied()
}

/// Whether an act may wait: a lock or a join.
#[inline(always)]
fn may_wait(act: Act) -> bool
    ensures { result ≡ false → NeverWaits act }
{
    match act {
        Act::Shared(SharedStop::Lock(_)) | Act::Join => true,
        _ => false,
    }
}

impl Running {
    /// The function of the enter that is due, if one is.
    fn entering(&self, image: &CodeImage) -> Option<Word>
        requires { FitsImage image.now self.now }
        ensures { option_map (word (words_of image.now)) result ≡ entered_by (thread_of image.now self.now).next }
    {
        match self.next {
            Next::Enters(n, _) => word_at(image.callees.as_slice(), n),
            Next::Continues | Next::Stands(_) => None,
        }
    }

    /// The stop at which the innermost frame rests, if it rests at one. It is asked of a thread that has no private work to do.
    #[inline(always)]
    fn next_stop(&self, image: &CodeImage) -> Option<StopPlace>
        requires { FitsImage image.now self.now }
        ensures { (self.now.next ≡ ContinuesNext → ⊥) → (all : List (List BareDef)) (versions : List ℕ) → RunsCode all versions image.now self.now → (w : World) (slot : ℕ)
            → in_slot w slot ≡ IsLive (thread_of image.now self.now)
            → MatchOption result (HasNoStop (texts_by all versions) w slot) (IsNextStop (texts_by all versions) (names_in all) image.now w slot) }
    {
        match self.next {
            Next::Stands(end) => match end {
                End::Rests => {
                    let frame = innermost(&self.frames);
                    image.function(frame.unit).stop_at(frame.place).copied()
                }
                End::Traps(_) => None,
            },
            Next::Enters(_, _) | Next::Continues => None,
        }
    }

    /// The newest word on the innermost frame's stack, if there is one.
    fn newest(&self) -> Option<u64>
        requires { IsKept self.now.frames }
        ensures { let stack = stack_of self.now.frames (innermost self.now.frames).height in
            MatchOption result (0 < depth_of self.now.frames → stack ≡ []) (λ newest. (under : List ℕ) × (stack ≡ newest ∷ under)) }
    {
        if self.frames.depth() == 0 {
            return None;
        }
        let (_, height) = self.frames.stack();
        if height == 0 {
            return None;
        }
        Some(self.frames.newest())
    }
}

impl CodeMachine {
    /// How many threads were started.
    pub fn threads(&self) -> u64
        ensures { result ≡ (code_world self.now).threads }
    {
        self.run.threads
    }

    /// How the run has ended, if it has.
    pub fn finish(&self) -> Option<Finish>
        ensures { option_map finish_of result ≡ (code_world self.now).finish }
    {
        self.run.finish
    }

    /// Whether a thread lives in a slot.
    #[inline(always)]
    pub fn is_live(&self, slot: u8) -> bool
        ensures { result ≡ is_live (in_slot (code_world self.now) slot) }
    {
        self.live(slot).is_some()
    }

    /// Whether the thread in a slot is in a transaction.
    pub fn in_transaction(&self, slot: u8) -> bool
        ensures { result ≡ in_transaction (in_slot (code_world self.now) slot) }
    {
        match self.live(slot) {
            Some(running) => running.depth > 0,
            None => false,
        }
    }

    /// Where the frame of the thread in a slot is that is so many calls above the innermost one; where it enters a function, above the
    /// innermost of those that wait.
    pub fn frame_up(&self, slot: u8, up: usize) -> Option<FramePlace>
        ensures { option_map (place_seen (words_of (image_of self.now))) result
            ≡ option_map place_of (slice_get (frames_in (in_slot (code_world self.now) slot)) up) }
    {
        match self.live(slot) {
            Some(running) => place_up(running.frames.frames.as_slice(), up),
            None => None,
        }
    }

    /// The function that the thread in a slot enters next, if it enters one.
    pub fn entering(&self, slot: u8) -> Option<Word>
        ensures { option_map (word (words_of (image_of self.now))) result ≡ entering_in (in_slot (code_world self.now) slot) }
    {
        match self.live(slot) {
            Some(running) => running.entering(&self.image),
            None => None,
        }
    }

    /// The stop at which the innermost frame of the thread in a slot rests, if it rests at one. It is asked of a thread that has no private
    /// work to do.
    #[inline(always)]
    pub fn next_stop(&self, slot: u8) -> Option<StopPlace>
        ensures { IsSettledAt self.now slot → (all : List (List BareDef)) → IsMachineOf all self.now → MatchOption result
            (HasNoStop (texts_of all self.now.run) (code_world self.now) slot)
            (IsNextStop (texts_of all self.now.run) (names_in all) (image_of self.now) (code_world self.now) slot) }
    {
        match self.live(slot) {
            Some(running) => running.next_stop(&self.image),
            None => None,
        }
    }

    /// Whether the thread in a slot waits. It takes a few instructions where it rests neither at a lock nor at a join. It is asked of a
    /// thread that has no private work to do.
    #[inline(always)]
    pub fn is_held(&self, slot: u8) -> bool
        ensures { IsSettledAt self.now slot → (all : List (List BareDef)) → IsMachineOf all self.now → IsHeld (texts_of all self.now.run) (names_in all) (code_world self.now) slot result }
    {
        if self.may_wait(slot) {
            self.is_held_there(slot)
        } else {
            false
        }
    }

    /// The same of a thread that may rest at a lock or a join.
    fn is_held_there(&self, slot: u8) -> bool
        ensures { IsSettledAt self.now slot → (all : List (List BareDef)) → IsMachineOf all self.now → IsHeld (texts_of all self.now.run) (names_in all) (code_world self.now) slot result }
    {
        self.waits(slot).is_some()
    }

    /// Whether the thread in a slot rests at a stop that may wait: at a lock or a join.
    #[inline(always)]
    fn may_wait(&self, slot: u8) -> bool
        ensures { IsSettledAt self.now slot → (all : List (List BareDef)) → IsMachineOf all self.now → result ≡ false
            → WaitsFor (texts_of all self.now.run) (names_in all) (code_world self.now) slot None }
    {
        match self.next_stop(slot) {
            Some(stop) => may_wait(stop.act),
            None => false,
        }
    }

    /// What the thread in a slot waits for, if it waits. It is asked of a thread that has no private work to do.
    pub fn waits(&self, slot: u8) -> Option<CodeWait>
        ensures { IsSettledAt self.now slot → (all : List (List BareDef)) → IsMachineOf all self.now →
            WaitsFor (texts_of all self.now.run) (names_in all) (code_world self.now) slot (option_map (waiting_of (words_of (image_of self.now))) result) }
    {
        match self.next_stop(slot) {
            Some(stop) => self.waits_at(slot, stop),
            None => None,
        }
    }

    /// The thread in a slot, if one lives there.
    #[inline(always)]
    fn live(&self, slot: u8) -> Option<&Running>
        ensures { MatchOption result (is_live (in_slot (code_world self.now) slot) ≡ false) (λ r. LivesIn self.now slot r.now) }
    {
        match self.run.slots.get(slot as usize) {
            Some(running) => match running.stand {
                Stand::Live => Some(running),
                Stand::Free | Stand::Over(_) => None,
            },
            None => None,
        }
    }

    /// What a thread waits for at the stop at which it rests.
    fn waits_at(&self, slot: u8, stop: StopPlace) -> Option<CodeWait>
        ensures { IsSettledAt self.now slot → (texts : List (List BareDef)) (names : Names) → IsNextStop texts names (image_of self.now) (code_world self.now) slot stop
            → WaitsFor texts names (code_world self.now) slot (option_map (waiting_of (words_of (image_of self.now))) result) }
    {
        let StopPlace { stop, act, .. } = stop;
        match act {
            Act::Shared(shared) => self.held_for(slot, stop, shared),
            Act::Join => self.joined_by(slot),
            _ => None,
        }
    }

    /// What a stop on what threads share waits for.
    fn held_for(&self, slot: u8, stop: Stop, shared: SharedStop) -> Option<CodeWait>
        ensures { let t = words_of (image_of self.now) in (names : Names) (text : List BareDef) (stack : List ℕ)
            → Acts t names text (named t (image_of self.now).callees.items) (stop_of t stop) (SharedAct shared)
            → option_map (waiting_of t) result ≡ at_stop names (code_world self.now) slot (stop_of t stop) stack }
    {
        match shared {
            SharedStop::Lock(n) => self.locked(slot, stop, n),
            _ => None,
        }
    }

    /// The mutex that a lock of the one with a number waits for: another thread holds it.
    fn locked(&self, slot: u8, stop: Stop, n: u32) -> Option<CodeWait>
        ensures { let t = words_of (image_of self.now) in (names : Names) (text : List BareDef) (stack : List ℕ)
            → Acts t names text (named t (image_of self.now).callees.items) (stop_of t stop) (SharedAct (LockStop n))
            → option_map (waiting_of t) result ≡ at_stop names (code_world self.now) slot (stop_of t stop) stack }
    {
        match stop {
            Stop::Lock(name) => held_by(slot, self.run.shared.holder(n), name),
            _ => None,
        }
    }

    /// The thread that a join waits for: it lives.
    fn joined_by(&self, slot: u8) -> Option<CodeWait>
        ensures { IsSettledAt self.now slot → (f : CodeFrame) → RestsIn (code_world self.now) slot f
            → option_map (waiting_of (words_of (image_of self.now))) result ≡ joined (code_world self.now).slots f.state.stack }
    {
        match self.live(slot) {
            Some(running) => match running.newest() {
                Some(newest) => self.lives_as(newest),
                None => None,
            },
            None => None,
        }
    }

    /// The thread of a word, if it lives.
    fn lives_as(&self, thread: u64) -> Option<CodeWait>
        ensures { option_map (waiting_of (words_of (image_of self.now))) result ≡ joined_from thread 0 (code_world self.now).slots }
    {
        match live_slot(self.run.slots.as_slice(), thread) {
            Some(place) => Some(CodeWait::Thread(place as u8)),
            None => None,
        }
    }
}
