//! A slot: the thread in it, if there is one, with its frames.
ghost use Rattle.std.specs.Prelude.{◌≡◌, ◌<◌, [], IfOk, List, length, ℕ};
ghost use Rattle.c_tree.specs.BareDef.{BareDef};
ghost use Rattle.source_model.specs.Moves.{frame_count};
ghost use Rattle.code_runs.specs.CodeThreads.{Live as IsLive, starting};
ghost use Rattle.word_frames.specs.Seen.{IsKept, depth_of, innermost};
ghost use Rattle.code_image.specs.declared.function.CodeFunction.{CodeFunction as Function};
ghost use Rattle.code_image.specs.declared.image.CodeImage.{CodeImage as Image};
ghost use Rattle.code_image.specs.Stacks.{AreNeverHigher};
ghost use Rattle.code_machine.specs.declared.running.Next.TheVariants.{Continues as ContinuesNext, Enters as EntersNext};
ghost use Rattle.code_machine.specs.declared.running.Stand.TheVariants.{Free as FreeStand};
ghost use Rattle.code_machine.specs.Kept.{Fits, FitsImage, most_threads};
ghost use Rattle.code_machine.specs.Seen.{slot_of};
ghost use Rattle.code_machine.specs.ThreadStops.{first_enter};
ghost use Rattle.code_machine.specs.Versions.{IsInForce, RunsCode, texts_by};
ghost use Rattle.code_machine.specs.Stops.{Answered, CanGoOn, Entered, Exchanges, Executed, IsFresh, RestsAt, SameThread, WentOn};

use code_image::{CodeImage, StopPlace};
use std::alloc::{AllocError, Global};
use thread_state::End;
use word_frames::{Frame, Frames};

/// What a thread does next.
#[derive(Clone, Copy)]
pub(crate) enum Next {
    /// It enters the function of the name with a number, with so many arguments.
    Enters(u32, usize),
    /// Its innermost frame has private instructions to execute, from its place on.
    Continues,
    /// Its innermost frame is where its private instructions ended: it rests at a stop, or an operator traps.
    Stands(End),
}

/// What is in a slot.
#[derive(Clone, Copy)]
pub(crate) enum Stand {
    /// No thread.
    Free,
    /// A thread.
    Live,
    /// A thread ended there with this word, and wasn't joined yet.
    Over(u64),
}

/// A slot. Its memory serves one thread after the other.
#[derive(Drop)]
pub(crate) struct Running {
    pub stand: Stand,
    /// The thread's number among all threads.
    pub serial: u64,
    /// How many transactions it is in.
    pub depth: usize,
    /// The version of the frame that called or spawned, where an enter is due.
    pub version: u32,
    pub next: Next,
    /// Whether it leaves private work that follows a stop for later.
    pub leaves_work: bool,
    pub frames: Frames,
}

/// The innermost of some frames.
pub(crate) fn innermost(frames: &Frames) -> Frame
    requires { 0 < depth_of frames.now }
    ensures { result ≡ innermost frames.now }
{
    let last = frames.frames.len() - 1;
    frames.frames[last]
}

impl Running {
    /// A slot with no thread, and memory for all frames that one may have.
    pub(crate) fn new(alloc: Global, image: &CodeImage) -> Result<Running, AllocError>
        ensures fits { IfOk result (FitsImage image.now) }
        ensures free { IfOk result (λ r. r.stand ≡ FreeStand) }
        ensures fresh { IfOk result (λ r. IsFresh r image.now.main) }
    {
        Ok(Running {
            stand: Stand::Free,
            serial: 0,
            depth: 0,
            version: 1,
            next: Next::Enters(image.main, 0),
            leaves_work: false,
            frames: Frames::new(alloc, image.highest_stack)?,
        })
    }

    /// A thread starts, on behalf of a version: it enters the function of a name with an argument, which a function without parameters
    /// doesn't look at.
    pub(crate) fn start(&mut self, serial: u64, version: u32, function: u32, argument: u64)
        requires kept { IsKept self.old.frames }
        requires serial { serial < most_threads }
        ensures fits { (functions : List Function) (callees : ℕ) → function < callees
            → AreNeverHigher self.old.frames.highest_stack functions → Fits functions callees self.new }
        ensures none { self.new.frames.frames.items ≡ [] }
        ensures started { (image : Image) → slot_of image self.new ≡ IsLive (starting serial (first_enter image version function argument)) }
        ensures depth { self.new.depth ≡ 0 }
        ensures leaves { self.new.leaves_work ≡ self.old.leaves_work }
    {
        self.frames.start(argument);
        self.stand = Stand::Live;
        self.serial = serial;
        self.depth = 0;
        self.version = version;
        self.next = Next::Enters(function, 1);
    }

    /// The innermost frame, which stopped at a point, goes on at a place with so many words on its stack. It executes its private
    /// instructions from there, or leaves them: they are due then, and [`Running::run_on`] executes them.
    #[inline(always)]
    pub(crate) fn go_on(&mut self, image: &CodeImage, point: u32, place: usize, height: usize)
        requires { CanGoOn image.now.functions.items self.old place height }
        ensures fits { FitsImage image.now self.new }
        ensures same { SameThread self.old self.new }
        ensures runs { (all : List (List BareDef)) (versions : List ℕ) → RunsCode all versions image.now self.old
            → RunsCode all versions image.now self.new }
        ensures went { (all : List (List BareDef)) (versions : List ℕ) → RunsCode all versions image.now self.old → WentOn (texts_by all versions) image.now self.old self.new point place height }
    {
        if self.leaves_work {
            self.frames.put_off(point, place, height);
            self.next = Next::Continues;
            return;
        }
        self.execute(image, point, place, height);
    }

    /// Does the private work that is due, if some is.
    pub(crate) fn run_on(&mut self, image: &CodeImage)
        requires { FitsImage image.now self.old }
        ensures fits { FitsImage image.now self.new }
        ensures runs { (all : List (List BareDef)) (versions : List ℕ) → RunsCode all versions image.now self.old
            → RunsCode all versions image.now self.new }
        ensures same { SameThread self.old self.new }
        ensures seen { slot_of image.now self.new ≡ slot_of image.now self.old }
        ensures settled { self.new.next ≡ ContinuesNext → ⊥ }
    {
        match self.next {
            Next::Continues => self.execute_due(image),
            Next::Enters(_, _) | Next::Stands(_) => {}
        }
    }

    /// The innermost frame executes the private instructions that are due.
    fn execute_due(&mut self, image: &CodeImage)
        requires fits { FitsImage image.now self.old }
        requires due { self.old.next ≡ ContinuesNext }
        ensures fits { FitsImage image.now self.new }
        ensures runs { (all : List (List BareDef)) (versions : List ℕ) → RunsCode all versions image.now self.old
            → RunsCode all versions image.now self.new }
        ensures same { SameThread self.old self.new }
        ensures seen { slot_of image.now self.new ≡ slot_of image.now self.old }
        ensures settled { self.new.next ≡ ContinuesNext → ⊥ }
    {
        let frame = innermost(&self.frames);
        self.execute(image, frame.point, frame.place, frame.height);
    }

    /// The innermost frame, which stopped at a point, executes its private instructions from a place on with so many words on its stack.
    #[inline(never)]
    fn execute(&mut self, image: &CodeImage, point: u32, place: usize, height: usize)
        requires { CanGoOn image.now.functions.items self.old place height }
        ensures fits { FitsImage image.now self.new }
        ensures runs { (all : List (List BareDef)) (versions : List ℕ) → RunsCode all versions image.now self.old
            → RunsCode all versions image.now self.new }
        ensures same { SameThread self.old self.new }
        ensures executed { Executed image.now self.old self.new point place height }
    {
        let function = image.function(innermost(&self.frames).unit);
        let end = self.frames.go_on(
            function.verified.body.code.as_slice(),
            function.verified.heights.as_slice(),
            function.ops.as_slice(),
            point,
            place,
            height,
        );
        self.next = Next::Stands(end);
    }

    /// Enters a function, in a version, with the arguments that are due to the function of the name with the number `n`.
    pub(crate) fn enter(
        &mut self,
        image: &CodeImage,
        version: u32,
        function: u32,
        n: u32,
        count: usize,
    )
        requires fits { FitsImage image.now self.old }
        requires next { self.old.next ≡ EntersNext n count }
        requires few { depth_of self.old.frames < frame_count }
        requires inside { function < length image.now.functions.items }
        ensures fits { FitsImage image.now self.new }
        ensures same { SameThread self.old self.new }
        ensures runs { (all : List (List BareDef)) (versions : List ℕ) → RunsCode all versions image.now self.old
            → version ≡ length versions → IsInForce image.now versions n function → RunsCode all versions image.now self.new }
        ensures entered { (all : List (List BareDef)) (versions : List ℕ) → RunsCode all versions image.now self.old
            → version ≡ length versions → IsInForce image.now versions n function
            → Entered (texts_by all versions) image.now self.old self.new n count }
    {
        let name = image.function(function).name;
        self.frames.enter(name, version, function, count);
        self.go_on(image, 0, 1, 0);
    }

    /// Puts a word in place of the newest one, and goes on after the stop.
    pub(crate) fn answer(&mut self, image: &CodeImage, stop: &StopPlace, word: u64)
        requires rests { RestsAt image.now.functions.items (length image.now.callees.items) self.old stop.now }
        requires exchanges { Exchanges stop.now.act }
        ensures fits { FitsImage image.now self.new }
        ensures same { SameThread self.old self.new }
        ensures runs { (all : List (List BareDef)) (versions : List ℕ) → RunsCode all versions image.now self.old
            → RunsCode all versions image.now self.new }
        ensures answered { (all : List (List BareDef)) (versions : List ℕ) → RunsCode all versions image.now self.old → Answered (texts_by all versions) image.now self.old self.new stop.now word }
    {
        let (low, height) = self.frames.stack();
        self.frames.words[low + height - 1] = word;
        self.go_on(image, stop.point, stop.after, height);
    }
}
