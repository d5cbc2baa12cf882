//! What is kept of a thread's frames.
ghost use Rattle.std.specs.Prelude.{◌≡◌, ◌↔◌, ◌+◌, ◌-◌, ◌<◌, ◌≤◌, [], ◌∷◌, length, slice_get, vec_capacity, IfOk, IsTrue};
ghost use Rattle.source_model.specs.Moves.{frame_count};
ghost use Rattle.word_frames.specs.Blocks.{base_of, block, words_for};
ghost use Rattle.word_frames.specs.Seen.{IsKept, arguments_at, depth_of, innermost, stack_base};
ghost use Rattle.thread_state.specs.Frames.{downward, most_words};

use crate::blocks::{SPARE, base, fill, variables};
use crate::frame::Frame;
use std::alloc::{AllocError, Global};

/// How many frames a thread has at most.
pub const MOST_FRAMES: usize = 256;

/// The frames of a thread, the innermost last, and their words: first the argument with which the thread starts, and then a block
/// for each frame, the outermost first. A block has the words of the variables, and after them those of the stack, the newest
/// last; it is as long as the highest stack wants it. Words above a stack mean nothing, but for the arguments of a function that is
/// to be entered. After the last block are words enough for a stack as high as any code's.
#[derive(Drop)]
pub struct Frames {
    pub words: Vec<u64>,
    pub frames: Vec<Frame>,
    /// No stack is higher.
    pub highest_stack: usize,
}

impl Frames {
    /// No frames, with memory for as many as a thread may have of functions whose stacks are never higher than this. Nothing else
    /// here takes memory.
    pub fn new(alloc: Global, highest_stack: usize) -> Result<Frames, AllocError>
        requires { highest_stack ≤ most_words }
        ensures kept { IfOk result (λ s. IsKept s) }
        ensures empty { IfOk result (λ s. s.frames.items ≡ []) }
        ensures high { IfOk result (λ s. s.highest_stack ≡ highest_stack) }
        ensures memory { IfOk result (λ s. vec_capacity s.words ≡ words_for highest_stack) }
    {
        let most = base(highest_stack, MOST_FRAMES) + SPARE;
        let mut words = Vec::with_capacity(alloc, most)?;
        fill(&mut words, 1 + SPARE);
        let frames = Vec::with_capacity(alloc, MOST_FRAMES)?;
        Ok(Frames {
            words,
            frames,
            highest_stack,
        })
    }

    /// How many frames there are.
    pub fn depth(&self) -> usize
        ensures { result ≡ depth_of self.now }
    {
        self.frames.len()
    }

    /// Whether there are as many frames as a thread may have.
    pub fn is_full(&self) -> bool
        ensures { IsTrue result ↔ (frame_count ≤ depth_of self.now) }
    {
        self.frames.len() >= MOST_FRAMES
    }

    /// The innermost frame, if there is one.
    pub fn innermost(&self) -> Option<Frame>
        ensures { result ≡ slice_get self.now.frames.items (depth_of self.now - 1) }
    {
        self.frames.last().copied()
    }

    /// The stack of the innermost frame: the place of its first word, and how many words it has.
    pub fn stack(&self) -> (usize, usize)
        requires kept { IsKept self.now }
        requires frame { 0 < depth_of self.now }
        ensures low { result.0 ≡ stack_base self.now }
        ensures height { result.1 ≡ (innermost self.now).height }
        ensures few { result.1 ≤ most_words }
        ensures space { result.0 + most_words < length self.now.words.items }
    {
        let last = self.frames.len() - 1;
        (self.last_base() + variables(), self.frames[last].height)
    }

    /// The newest word of the innermost frame's stack.
    pub fn newest(&self) -> u64
        requires kept { IsKept self.now }
        requires frame { 0 < depth_of self.now }
        requires word { 0 < (innermost self.now).height }
        ensures { let height = (innermost self.now).height in
            downward self.now.words.items (stack_base self.now) height ≡ result ∷ downward self.now.words.items (stack_base self.now) (height - 1) }
    {
        let (low, height) = self.stack();
        self.words[low + height - 1]
    }

    /// Where the words of the innermost frame begin.
    pub(crate) fn last_base(&self) -> usize
        requires kept { IsKept self.now }
        requires frame { 0 < depth_of self.now }
        ensures value { result ≡ base_of self.now.highest_stack (depth_of self.now - 1) }
        ensures space { result + block self.now.highest_stack + most_words < length self.now.words.items }
    {
        base(self.highest_stack, self.frames.len() - 1)
    }

    /// Where arguments are: above the innermost frame's stack, or in the first word where there is no frame.
    pub(crate) fn arguments(&self) -> usize
        requires { IsKept self.now }
        ensures { result ≡ arguments_at self.now.highest_stack (depth_of self.now) self.now.frames.items }
    {
        if self.frames.is_empty() {
            return 0;
        }
        let (low, height) = self.stack();
        low + height
    }
}
