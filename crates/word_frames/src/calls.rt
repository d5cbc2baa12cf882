//! Calls: a thread starts, a function is entered, a frame goes on, waits and returns.
ghost use Rattle.std.specs.Prelude.{◌≡◌, ◌+◌, ◌-◌, ◌<◌, ◌≤◌, [], ◌∷◌, ◌++◌, Option, slice_set, take, ℕ};
ghost use Rattle.resolved_tree.specs.Nodes.{Table};
ghost use Rattle.bytecode.specs.Seen.{code_of};
ghost use Rattle.code_kinds.specs.WellFormed.{most_variables};
ghost use Rattle.source_model.specs.Moves.{frame_count};
ghost use Rattle.thread_state.specs.Heights.{HasHeight, Sound};
ghost use Rattle.fused_code.specs.Fused.{AreFused};
ghost use Rattle.word_frames.specs.Seen.{HasArguments, IsKept, arguments_of, depth_of, frame_at, innermost};
ghost use Rattle.word_frames.specs.Changes.{Enters, Leaves, PutOff, Waits, WentOn, new_frame, with_innermost};

use crate::blocks::{SPARE, base, copy_reversed, fill, variables};
use crate::frame::Frame;
use crate::frames::Frames;
use bytecode::Instr;
use fused_code::burst;
use fused_operations::Op;
use resolved_tree::Word;
use thread_state::End;

impl Frames {
    /// A thread starts: it has no frame, and this is the word of the argument for its function. A function without parameters
    /// doesn't look at it.
    pub fn start(&mut self, argument: u64)
        requires { IsKept self.old }
        ensures kept { IsKept self.new }
        ensures frames { self.new.frames.items ≡ [] }
        ensures high { self.new.highest_stack ≡ self.old.highest_stack }
        ensures argument { arguments_of self.new 1 ≡ argument ∷ [] }
        ensures there { HasArguments self.new 1 }
    {
        self.frames.clear();
        self.words[0] = argument;
    }

    /// Enters a function with so many arguments, which are the words above the innermost frame's stack in order. Its frame is the
    /// innermost then, and stands after its entry check-in; its variables begin with the arguments, the last one first. There is
    /// room for it unless [`Frames::is_full`] says otherwise.
    pub fn enter(&mut self, function: Word, version: u32, unit: u32, count: usize)
        requires kept { IsKept self.old }
        requires few { depth_of self.old < frame_count }
        requires arguments { HasArguments self.old count }
        ensures kept { IsKept self.new }
        ensures high { self.new.highest_stack ≡ self.old.highest_stack }
        ensures frames { self.new.frames.items ≡ self.old.frames.items ++ new_frame function version unit ∷ [] }
        ensures enters { (t : Table) → Enters t self.old self.new function version count }
    {
        let from = self.arguments();
        let to = base(self.highest_stack, self.frames.len());
        fill(
            &mut self.words,
            to + variables() + self.highest_stack + SPARE,
        );
        copy_reversed(&mut self.words, from, to, count);
        self.frames.push_reserved(Frame {
            function,
            version,
            unit,
            point: 0,
            place: 1,
            height: 0,
        });
    }

    /// The innermost frame, which stopped at a point, goes on at a place with so many words on its stack, to its next stop or a
    /// trap. `code` is the code of its function, `ops` are its operations, and `heights` has the height of the stack at each place, none
    /// of them higher than the highest of the thread.
    ///
    /// It takes time linear in the instructions that are executed.
    pub fn go_on(
        &mut self,
        code: &[Instr],
        heights: &[Option<u8>],
        ops: &[Op],
        point: u32,
        place: usize,
        height: usize,
    ) -> End
        requires kept { IsKept self.old }
        requires frame { 0 < depth_of self.old }
        requires sound { (t : Table) → Sound (code_of t code.now) most_variables heights.now }
        requires fused { AreFused code.now most_variables heights.now ops.now }
        requires height { HasHeight heights.now place height }
        requires low { (p h : ℕ) → HasHeight heights.now p h → h ≤ self.old.highest_stack }
        ensures kept { IsKept self.new }
        ensures high { self.new.highest_stack ≡ self.old.highest_stack }
        ensures frames { let f = innermost self.new in
            self.new.frames.items ≡ with_innermost self.old (record (innermost self.old) { point = point; place = f.place; height = f.height }) }
        ensures height { HasHeight heights.now (innermost self.new).place (innermost self.new).height }
        ensures goes { (t : Table) → WentOn t code.now self.old self.new point place height result }
    {
        let base = self.last_base();
        let reached = burst(
            ops,
            code,
            heights,
            variables(),
            &mut self.words,
            base,
            place,
            height,
        );
        self.stand(point, reached.place, reached.height);
        reached.end
    }

    /// The innermost frame, which stopped at a point, is to go on at a place with so many words on its stack. It executes nothing:
    /// [`Frames::go_on`] does, from there.
    pub fn put_off(&mut self, point: u32, place: usize, height: usize)
        requires kept { IsKept self.old }
        requires frame { 0 < depth_of self.old }
        requires low { height ≤ self.old.highest_stack }
        ensures kept { IsKept self.new }
        ensures high { self.new.highest_stack ≡ self.old.highest_stack }
        ensures frames { self.new.frames.items ≡ with_innermost self.old (record (innermost self.old) { point = point; place = place; height = height }) }
        ensures puts { (t : Table) → PutOff t self.old self.new point place height }
    {
        self.stand(point, place, height);
    }

    /// The innermost frame waits after a call with so many arguments: they are no longer on its stack, and stay above it for
    /// [`Frames::enter`]. The call was its stop with the number `point`, and it goes on at `place`.
    pub fn wait(&mut self, count: usize, point: u32, place: usize)
        requires kept { IsKept self.old }
        requires frame { 0 < depth_of self.old }
        requires words { count ≤ (innermost self.old).height }
        ensures kept { IsKept self.new }
        ensures high { self.new.highest_stack ≡ self.old.highest_stack }
        ensures frames { let f = innermost self.old in
            self.new.frames.items ≡ with_innermost self.old (record f { point = point; place = place; height = f.height - count }) }
        ensures there { count ≤ most_variables → HasArguments self.new count }
        ensures waits { (t : Table) → Waits t self.old self.new count point place }
    {
        let last = self.frames.len() - 1;
        let height = self.frames[last].height - count;
        self.stand(point, place, height);
    }

    /// The innermost frame returns the newest word of its stack to the frame that called: that frame is the innermost then, with the
    /// word on its stack.
    pub fn leave(&mut self)
        requires kept { IsKept self.old }
        requires frames { 2 ≤ depth_of self.old }
        requires word { 0 < (innermost self.old).height }
        requires space { (frame_at self.old (depth_of self.old - 2)).height < self.old.highest_stack }
        ensures kept { IsKept self.new }
        ensures high { self.new.highest_stack ≡ self.old.highest_stack }
        ensures frames { let last = depth_of self.old - 2 in let f = frame_at self.old last in
            self.new.frames.items ≡ slice_set (take (depth_of self.old - 1) self.old.frames.items) last (record f { height = f.height + 1 }) }
        ensures leaves { (t : Table) → Leaves t self.old self.new }
    {
        let word = self.newest();
        self.frames.pop();
        let last = self.frames.len() - 1;
        let frame = self.frames[last];
        let low = self.last_base() + variables();
        self.words[low + frame.height] = word;
        self.stand(frame.point, frame.place, frame.height + 1);
    }

    /// The innermost frame is at a place, with so many words on its stack, after its stop at a point.
    pub(crate) fn stand(&mut self, point: u32, place: usize, height: usize)
        requires kept { IsKept self.old }
        requires frame { 0 < depth_of self.old }
        requires low { height ≤ self.old.highest_stack }
        ensures kept { IsKept self.new }
        ensures high { self.new.highest_stack ≡ self.old.highest_stack }
        ensures words { self.new.words ≡ self.old.words }
        ensures frames { self.new.frames.items ≡ with_innermost self.old (record (innermost self.old) { point = point; place = place; height = height }) }
    {
        let last = self.frames.len() - 1;
        let mut frame = self.frames[last];
        frame.point = point;
        frame.place = place;
        frame.height = height;
        self.frames[last] = frame;
    }
}
