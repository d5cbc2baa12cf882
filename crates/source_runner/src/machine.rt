//! The state of a run, and the move of a thread.
ghost use Rattle.std.specs.Prelude.{◌≡◌, ◌<◌, ◌||◌, true, false, Some, None, length, map, option_map, IfOk};
ghost use Rattle.std.specs.Option.{option_map_or};
ghost use Rattle.c_semantics.specs.Texts.{definition};
ghost use Rattle.c_semantics.specs.Threads.{Thread as SeenThread, entered};
ghost use Rattle.source_model.specs.Versions.{Table as VersionTable};
ghost use Rattle.version_laws.specs.Histories.{IsHistory};
ghost use Rattle.source_model.specs.Worlds.{World, Trapped, in_slot, is_over, with_thread};
ghost use Rattle.source_model.specs.Uses.{use_at, is_right, marked};
ghost use Rattle.source_model.specs.Moves.{enter, in_frames, move, move_of, perform, stop_made, thread_move};
ghost use Rattle.source_model.specs.Waits.{must_wait};
ghost use Rattle.local_evaluation.specs.declared.value.Value.TheVariants.{Started};
ghost use Rattle.source_runner.specs.declared.thread.Slot.TheVariants.{Over};
ghost use Rattle.source_runner.specs.declared.thread.Next.TheVariants.{Enter as Entering, Halt as Halting};
ghost use Rattle.local_evaluation.specs.declared.work.Halt.TheVariants.{At as AtStop};
ghost use Rattle.source_runner.specs.Machines.{Moves, IsReady, IsStopped, IsThread, Stands, StandsBut, enter_of, frame_at, stands_at};
ghost use Rattle.source_runner.specs.Frames.{frame_of, frames_of};
ghost use Rattle.resolved_tree.specs.Nodes.{Table, word};
ghost use Rattle.local_evaluation.specs.Pieces.{stop_of};
ghost use Rattle.source_programs.specs.Programs.{ArePrograms, current_of, name_of, table_of, versions_of};
ghost use Rattle.source_data.specs.Stores.{is_threads};
ghost use Rattle.local_evaluation.specs.Values.{seen};
ghost use Rattle.local_evaluation.specs.Work.{newest};

use crate::thread::{Enter, Frame, Next, Slot, Stopped, Thread};
use c_ints::Int;
use local_evaluation::{Halt, Stop, Value, Work, evaluate};
use run_types::TrapKind;
use source_data::{Did, Store, perform};
use source_programs::{Name, Programs};
use std::alloc::AllocError;
use std::mem;

/// How many frames a thread may have.
const FRAMES: usize = 256;

/// How a run has ended.
#[derive(Clone, Copy)]
pub(crate) enum Finish {
    /// The first call of `main` returned this.
    Finished(Int),
    /// The thread in a slot trapped.
    Trapped(TrapKind, u8),
}

/// The state of a run.
#[derive(Drop)]
pub(crate) struct Machine {
    pub program: Programs,
    pub store: Store,
    pub slots: Vec<Slot>,
    /// How many threads were started.
    pub threads: usize,
    /// Whether a definition was misused.
    pub misused: bool,
    pub finish: Option<Finish>,
}

/// A slot while its thread moves: nothing is started in it.
fn taken() -> Slot
    ensures { result ≡ Over 0 (Started None) }
{
    Slot::Over(0, Value::Started(None))
}

/// The name that a stop uses, if it uses one.
pub(crate) fn use_at(stop: Stop) -> Option<Name>
    ensures { (t : Table) → option_map (name_of t) result ≡ use_at (stop_of t stop) }
{
    match stop {
        Stop::ReadGlobal(name)
        | Stop::WriteGlobal(name)
        | Stop::ReadElement(name)
        | Stop::WriteElement(name)
        | Stop::InitMutex(name)
        | Stop::Lock(name)
        | Stop::Unlock(name)
        | Stop::Spawn(name) => Some(Name::Plain(name)),
        Stop::ReadField(tag, _) | Stop::WriteField(tag, _) | Stop::New(tag) | Stop::Free(tag) => {
            Some(Name::Struct(tag))
        }
        Stop::Print(_, _)
        | Stop::Join
        | Stop::Call(_, _)
        | Stop::Return
        | Stop::Back
        | Stop::Begin
        | Stop::End
        | Stop::Update => None,
    }
}

impl Machine {
    /// Makes the move of the thread in a slot. Where it can't be made, nothing changes.
    pub(crate) fn make(&mut self, slot: u8) -> Result<bool, AllocError>
        ensures moves { (w : World) → Stands self.old w → Moves self.new w result (move w slot) }
        ensures same { self.new.program ≡ self.old.program }
    {
        if self.must_stay(slot as usize) {
            return Ok(false);
        }
        self.take(slot)
    }

    /// Whether the thread in a slot can't move whatever it would do next: the run is over, or it waits.
    pub(crate) fn must_stay(&self, slot: usize) -> bool
        ensures { (w : World) → Stands self.now w → result ≡ (is_over w || must_wait w slot) }
    {
        self.is_over() || self.waits(slot).is_some()
    }

    /// Whether the run is over: a definition was misused, or the run has ended.
    pub(crate) fn is_over(&self) -> bool
        ensures { (w : World) → Stands self.now w → result ≡ is_over w }
    {
        self.misused || self.finish.is_some()
    }

    /// Takes a thread from its slot and makes its move.
    fn take(&mut self, slot: u8) -> Result<bool, AllocError>
        ensures moves { (w : World) → Stands self.old w → is_over w ≡ false → Moves self.new w result (move_of w slot (in_slot w slot)) }
        ensures same { self.new.program ≡ self.old.program }
    {
        let Some(place) = self.slots.get_mut(slot as usize) else {
            return Ok(false);
        };
        match mem::replace(place, taken()) {
            Slot::Live(thread, next) => self.act(slot, thread, next),
            other => {
                self.slots[slot as usize] = other;
                Ok(false)
            }
        }
    }

    /// The move of a thread that was taken from its slot.
    fn act(&mut self, slot: u8, thread: Thread, next: Next) -> Result<bool, AllocError>
        requires { slot < length self.old.slots.items }
        ensures moves { (w : World) (before : SeenThread) → StandsBut self.old slot w before → is_over w ≡ false
            → IsThread (table_of self.old.program) false thread next before
            → Moves self.new w result (thread_move w slot before before.entering) }
        ensures same { self.new.program ≡ self.old.program }
    {
        match next {
            Next::Enter(due) => self.enter(slot, thread, due),
            Next::Halt(frame, halt) => self.resume(slot, thread, frame, halt),
        }
    }

    /// Puts a thread back into its slot.
    pub(crate) fn keep(&mut self, slot: u8, thread: Thread, next: Next)
        requires { slot < length self.old.slots.items }
        ensures stands { (w : World) (before after : SeenThread) → StandsBut self.old slot w before
            → IsThread (table_of self.old.program) (is_over w) thread next after
            → Stands self.new (with_thread slot after w) }
        ensures same { self.new.program ≡ self.old.program }
    {
        self.slots[slot as usize] = Slot::Live(thread, next);
    }

    /// A thread goes on after a stop: its private work is done up to the next one.
    pub(crate) fn go_on(
        &mut self,
        slot: u8,
        thread: Thread,
        frame: Frame,
    ) -> Result<bool, AllocError>
        requires { slot < length self.old.slots.items }
        ensures moves { (w : World) (before after : SeenThread) → StandsBut self.old slot w before
            → IsReady (table_of self.old.program) thread frame after
            → Moves self.new w result (Some (with_thread slot after w)) }
        ensures same { self.new.program ≡ self.old.program }
    {
        let mut frame = frame;
        let halt = evaluate(self.program.trees(), &mut frame.work)?;
        self.keep(slot, thread, Next::Halt(frame, halt));
        Ok(true)
    }

    /// A stop traps, and with it the run ends.
    pub(crate) fn trap(
        &mut self,
        slot: u8,
        thread: Thread,
        next: Next,
        kind: TrapKind,
    ) -> Result<bool, AllocError>
        requires { slot < length self.old.slots.items }
        ensures moves { (w : World) (before after : SeenThread) → StandsBut self.old slot w before
            → IsThread (table_of self.old.program) true thread next after
            → Moves self.new w result (Some (record (with_thread slot after w) { finish = Some (Trapped kind slot) })) }
        ensures same { self.new.program ≡ self.old.program }
    {
        self.finish = Some(Finish::Trapped(kind, slot));
        self.keep(slot, thread, next);
        Ok(true)
    }

    /// A definition was misused.
    fn misuse(&mut self, slot: u8, thread: Thread, next: Next) -> Result<bool, AllocError>
        requires { slot < length self.old.slots.items }
        ensures moves { (w : World) (before : SeenThread) → StandsBut self.old slot w before
            → IsThread (table_of self.old.program) true thread next before
            → Moves self.new w result (Some (marked w)) }
        ensures same { self.new.program ≡ self.old.program }
    {
        self.misused = true;
        self.keep(slot, thread, next);
        Ok(true)
    }

    /// The thread can't move.
    pub(crate) fn stay(&mut self, slot: u8, thread: Thread, next: Next) -> Result<bool, AllocError>
        requires { slot < length self.old.slots.items }
        ensures moves { (w : World) (before : SeenThread) → StandsBut self.old slot w before
            → IsThread (table_of self.old.program) (is_over w) thread next before
            → Moves self.new w result None }
        ensures same { self.new.program ≡ self.old.program }
    {
        self.keep(slot, thread, next);
        Ok(false)
    }

    /// A thread enters a function.
    fn enter(&mut self, slot: u8, thread: Thread, due: Enter) -> Result<bool, AllocError>
        requires { slot < length self.old.slots.items }
        ensures moves { (w : World) (before : SeenThread) → StandsBut self.old slot w before → is_over w ≡ false
            → IsThread (table_of self.old.program) false thread (Entering due) before
            → Moves self.new w result (enter w slot before (enter_of (table_of self.old.program) due)) }
        ensures same { self.new.program ≡ self.old.program }
    {
        if !self.is_right_use(due.version, Name::Plain(due.function)) {
            return self.misuse(slot, thread, Next::Enter(due));
        }
        if thread.below.len() == FRAMES {
            return self.trap(slot, thread, Next::Enter(due), TrapKind::Depth);
        }
        let frame = self.frame(due)?;
        self.go_on(slot, thread, frame)
    }

    /// The frame of a function that is entered, in the version in force.
    fn frame(&self, due: Enter) -> Result<Frame, AllocError>
        ensures { ArePrograms self.now.program → IfOk result (λ frame. frame_of (table_of self.now.program) frame
            ≡ entered (definition (current_of self.now.program)) (word (table_of self.now.program) due.function)
            (length (versions_of self.now.program)) (map seen due.arguments.items)) }
    {
        let alloc = *due.arguments.allocator();
        let mut work = Work {
            pieces: Vec::new(alloc),
            values: Vec::new(alloc),
            scopes: Vec::new(alloc),
        };
        self.program
            .begin(&mut work, due.function, due.arguments.as_slice())?;
        Ok(Frame {
            function: due.function,
            version: self.program.version(),
            standing: 0,
            work,
        })
    }

    /// What a thread does after its private work.
    fn resume(
        &mut self,
        slot: u8,
        thread: Thread,
        frame: Frame,
        halt: Halt,
    ) -> Result<bool, AllocError>
        requires { slot < length self.old.slots.items }
        ensures moves { (w : World) (before : SeenThread) → StandsBut self.old slot w before → is_over w ≡ false
            → IsThread (table_of self.old.program) false thread (Halting frame halt) before
            → Moves self.new w result (in_frames w slot before before.frames) }
        ensures same { self.new.program ≡ self.old.program }
    {
        match halt {
            Halt::At(stop, point) => {
                let at = Stopped {
                    slot,
                    thread,
                    frame,
                    point,
                };
                self.stop(at, stop)
            }
            Halt::Trap(kind) => self.trap(slot, thread, Next::Halt(frame, halt), kind),
            Halt::Nothing => self.stay(slot, thread, Next::Halt(frame, halt)),
        }
    }

    /// Whether the use of a stop is right.
    pub(crate) fn is_right(&self, version: usize, stop: Stop) -> bool
        ensures { (table : VersionTable) → ArePrograms self.now.program → IsHistory (versions_of self.now.program) table
            → result ≡ option_map_or (is_right table version) (use_at (stop_of (table_of self.now.program) stop)) true }
    {
        match use_at(stop) {
            Some(name) => self.is_right_use(version, name),
            None => true,
        }
    }

    /// Whether the use of a name on behalf of a version is right.
    fn is_right_use(&self, version: usize, name: Name) -> bool
        ensures { (table : VersionTable) → ArePrograms self.now.program → IsHistory (versions_of self.now.program) table
            → result ≡ is_right table version (name_of (table_of self.now.program) name) }
    {
        self.program.is_right(version, name)
    }

    /// A stop, if its use is right.
    fn stop(&mut self, at: Stopped, stop: Stop) -> Result<bool, AllocError>
        requires { at.slot < length self.old.slots.items }
        ensures moves { let t = table_of self.old.program in (w : World) (before : SeenThread) → StandsBut self.old at.slot w before → is_over w ≡ false
            → IsThread t false at.thread (Halting at.frame (AtStop stop at.point)) before
            → Moves self.new w result (stop_made (stop_of t stop) w at.slot before (frame_at t at.frame at.point) (frames_of t at.thread.below.items)) }
        ensures same { self.new.program ≡ self.old.program }
    {
        if !self.is_right(at.frame.version, stop) {
            return self.misuse(
                at.slot,
                at.thread,
                Next::Halt(at.frame, Halt::At(stop, at.point)),
            );
        }
        match stop {
            Stop::Spawn(name) => self.spawn(at, name),
            Stop::Join => self.join(at),
            Stop::Call(name, count) => self.call(at, name, count),
            Stop::Return => self.give_back(at),
            Stop::Begin => self.begin(at),
            Stop::End => self.end(at),
            _ => self.perform(at, stop),
        }
    }

    /// A stop that changes no other thread.
    fn perform(&mut self, at: Stopped, stop: Stop) -> Result<bool, AllocError>
        requires { at.slot < length self.old.slots.items }
        ensures moves { let t = table_of self.old.program in (w : World) (before user : SeenThread)
            → IsStopped self.old at stop w before user → is_threads (stop_of t stop) ≡ false
            → Moves self.new w result (perform (stop_of t stop) (stands_at t w at user) (newest at.frame.work.values.items)) }
        ensures same { self.new.program ≡ self.old.program }
    {
        let Stopped {
            slot,
            thread,
            frame,
            point,
        } = at;
        let mut frame = frame;
        match perform(
            &self.program,
            &mut self.store,
            slot as usize,
            &mut frame.work.values,
            stop,
        )? {
            Did::On => {
                frame.standing = point;
                self.go_on(slot, thread, frame)
            }
            Did::Trap(kind) => {
                self.trap(slot, thread, Next::Halt(frame, Halt::At(stop, point)), kind)
            }
            Did::Nothing => self.stay(slot, thread, Next::Halt(frame, Halt::At(stop, point))),
        }
    }
}
