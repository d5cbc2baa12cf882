//! The words of the innermost frame on a row of their own, where its private instructions can be executed.
ghost use Rattle.std.specs.Prelude.{◌≡◌, ◌+◌, ◌<◌, ◌≤◌, IsTrue, length, ℕ};
ghost use Rattle.resolved_tree.specs.Nodes.{Table};
ghost use Rattle.thread_state.specs.Frames.{most_words, state_at};
ghost use Rattle.word_frames.specs.Blocks.{room};
ghost use Rattle.word_frames.specs.Seen.{IsKept, depth_of, innermost, innermost_state};
ghost use Rattle.word_frames.specs.Changes.{StateSet, with_innermost};

use crate::blocks::{copy, is_copy, variables};
use crate::frames::Frames;

/// How many words a frame has at most: its variables, and after them a stack as high as any.
pub const FRAME_WORDS: usize = 130;

impl Frames {
    /// Copies the words of the innermost frame, of its variables and of its stack, to the beginning of a row.
    pub fn copy_out(&self, row: &mut [u64])
        requires kept { IsKept self.now }
        requires frame { 0 < depth_of self.now }
        requires space { room + most_words ≤ length row.old }
        ensures long { length row.new ≡ length row.old }
        ensures copied { let height = (innermost self.now).height in
            (place : ℕ) → state_at row.new 0 room place height ≡ innermost_state self.now place height }
    {
        let (_, height) = self.stack();
        let base = self.last_base();
        copy(self.words.as_slice(), base, row, 0, variables() + height);
    }

    /// Whether a row begins with the words of the innermost frame.
    pub fn is_copied(&self, row: &[u64]) -> bool
        requires kept { IsKept self.now }
        requires frame { 0 < depth_of self.now }
        requires space { room + most_words ≤ length row.now }
        ensures { let height = (innermost self.now).height in
            IsTrue result → (place : ℕ) → state_at row.now 0 room place height ≡ innermost_state self.now place height }
    {
        let (_, height) = self.stack();
        let base = self.last_base();
        is_copy(self.words.as_slice(), base, row, 0, variables() + height)
    }

    /// Puts the words at the beginning of a row in place of those of the innermost frame, which is then at a place with so many words on
    /// its stack.
    pub fn copy_in(&mut self, row: &[u64], place: usize, height: usize)
        requires kept { IsKept self.old }
        requires frame { 0 < depth_of self.old }
        requires space { room + most_words ≤ length row.now }
        requires low { height ≤ self.old.highest_stack }
        ensures kept { IsKept self.new }
        ensures high { self.new.highest_stack ≡ self.old.highest_stack }
        ensures frames { self.new.frames.items ≡ with_innermost self.old (record (innermost self.old) { place = place; height = height }) }
        ensures set { (t : Table) → StateSet t self.old self.new (state_at row.now 0 room place height) }
    {
        let base = self.last_base();
        let last = self.frames.len() - 1;
        let point = self.frames[last].point;
        copy(row, 0, &mut self.words, base, variables() + height);
        self.stand(point, place, height);
    }
}
