//! Stops that change threads.
ghost use Rattle.std.specs.Prelude.{◌≡◌, ◌<◌, ◌∷◌, Bool, ℕ, drop, length, slice_index_or, slice_set, true, None, option_map, IfOk, IfSome, OnOk, MatchOption};
ghost use Rattle.c_semantics.specs.Values.{Started as IsStartedValue};
ghost use Rattle.std.specs.List.{position};
ghost use Rattle.c_ints.specs.Number.{value_of};
ghost use Rattle.c_semantics.specs.Threads.{Thread as SeenThread, started};
ghost use Rattle.source_model.specs.Worlds.{World, in_slot, with_slot, Free as IsFree, Live as IsLive, Over as IsOver};
ghost use Rattle.source_model.specs.Moves.{Standing, begin_at, call, end_at, finish_thread, goes_on, gone_on, join, join_slot, number_of, return, return_to, spawn};
ghost use Rattle.local_evaluation.specs.declared.piece.Stop.TheVariants.{Spawn as AtSpawn, Join as AtJoin, Call as AtCall, Return as AtReturn, Begin as AtBegin, End as AtEnd};
ghost use Rattle.source_runner.specs.declared.thread.Slot.TheVariants.{Free as FreeSlot};
ghost use Rattle.source_runner.specs.Frames.{frames_of};
ghost use Rattle.source_runner.specs.Joins.{is_free_slot, result_of};
ghost use Rattle.source_runner.specs.Machines.{IsPut, IsSlot, IsStarted, IsStopped, IsUser, Moves, Stands, StandsBut, enter_with, standing_at, stands_at};
ghost use Rattle.resolved_tree.specs.Nodes.{Table, word};
ghost use Rattle.source_programs.specs.Programs.{table_of};
ghost use Rattle.local_evaluation.specs.Values.{seen, seen_thread};
ghost use Rattle.local_evaluation.specs.Work.{newest};

use crate::machine::{Finish, Machine};
use crate::stack::{pop_frame, push_frame, take_arguments};
use crate::thread::{Enter, Frame, Next, Slot, Stopped, Thread};
use c_ints::Int;
use local_evaluation::stack::{discard, last, push};
use local_evaluation::{Halt, Stop, ThreadRef, Value};
use resolved_tree::{Word, later};
use run_types::TrapKind;
use std::alloc::{AllocError, Global};

/// The place of the least slot that is free.
fn free_slot(slots: &[Slot]) -> Option<usize>
    ensures least { result ≡ position is_free_slot slots.now }
    ensures free { IfSome result (λ place. is_free_slot (slice_index_or slots.now place FreeSlot) ≡ true) }
{
    for place in 0..slots.len() {
        if let Slot::Free = slots[place] {
            return Some(place);
        }
    }
    None
}

/// The int of a value; 0 where it's none.
fn number_of(value: Value) -> Int
    ensures { value_of result ≡ number_of (seen value) }
{
    match value {
        Value::Number(n) => n,
        Value::Reference(_) | Value::Started(_) => Int::I32(0),
    }
}

/// What the newest value names, if it is a handle.
fn handle(values: &[Value]) -> Option<Option<ThreadRef>>
    ensures { MatchOption result ((s : Standing) → join s (newest values.now) ≡ None)
        (λ named. newest values.now ≡ IsStartedValue (option_map seen_thread named) ∷ drop 1 (newest values.now)) }
{
    match last(values)? {
        Value::Started(named) => Some(named),
        Value::Number(_) | Value::Reference(_) => None,
    }
}

/// The result of a named thread, if it ended and wasn't joined yet; the thread that asks was taken from `slot`.
fn result_of(slots: &[Slot], slot: usize, named: ThreadRef) -> Option<Value>
    ensures { result ≡ result_of slots.now slot named }
{
    if named.slot == slot {
        return None;
    }
    match slots.get(named.slot) {
        Some(Slot::Over(ended, value)) if *ended == named.serial => Some(*value),
        _ => None,
    }
}

/// A thread that begins: it enters a function with an argument.
fn entering(
    alloc: Global,
    serial: usize,
    name: Word,
    argument: Value,
    version: usize,
) -> Result<Slot, AllocError>
    ensures { IfOk result (λ slot. (t : Table) (over : Bool)
        → IsSlot t over slot (IsLive (started serial (enter_with t name argument version)))) }
{
    let mut arguments = Vec::new(alloc);
    arguments.push(argument)?;
    Ok(Slot::Live(
        Thread {
            serial,
            below: Vec::new(alloc),
            depth: 0,
        },
        Next::Enter(Enter {
            function: name,
            arguments,
            version,
        }),
    ))
}

impl Machine {
    /// Starts a thread with the newest value in the least free slot. Where there is none, the handle names no thread.
    pub(crate) fn spawn(&mut self, at: Stopped, name: Word) -> Result<bool, AllocError>
        requires { at.slot < length self.old.slots.items }
        ensures moves { let t = table_of self.old.program in (w : World) (before user : SeenThread)
            → IsStopped self.old at (AtSpawn name) w before user
            → Moves self.new w result (spawn (stands_at t w at user) (word t name) (newest at.frame.work.values.items)) }
        ensures same { self.new.program ≡ self.old.program }
    {
        match last(at.frame.work.values.as_slice()) {
            Some(argument) => self.spawn_with(at, name, argument),
            None => self.stay(
                at.slot,
                at.thread,
                Next::Halt(at.frame, Halt::At(Stop::Spawn(name), at.point)),
            ),
        }
    }

    /// The same with its argument.
    fn spawn_with(&mut self, at: Stopped, name: Word, argument: Value) -> Result<bool, AllocError>
        requires { at.slot < length self.old.slots.items }
        ensures moves { let t = table_of self.old.program in (w : World) (before user : SeenThread)
            → IsStopped self.old at (AtSpawn name) w before user
            → Moves self.new w result (spawn (stands_at t w at user) (word t name) (seen argument ∷ drop 1 (newest at.frame.work.values.items))) }
        ensures same { self.new.program ≡ self.old.program }
    {
        let Stopped {
            slot,
            thread,
            frame,
            point,
        } = at;
        let mut frame = frame;
        let started = self.start(slot, name, argument, frame.version)?;
        discard(&mut frame.work.values);
        push(&mut frame.work.values, Value::Started(started))?;
        frame.standing = point;
        self.go_on(slot, thread, frame)
    }

    /// Starts a thread with an argument in the least free slot, if one is free; that of the thread that moves isn't.
    fn start(
        &mut self,
        slot: u8,
        name: Word,
        argument: Value,
        version: usize,
    ) -> Result<Option<ThreadRef>, AllocError>
        ensures same { self.new.program ≡ self.old.program }
        ensures within { OnOk result (length self.new.slots.items ≡ length self.old.slots.items) }
        ensures started { let enter = enter_with (table_of self.old.program) name argument version in (w : World) (before : SeenThread)
            → StandsBut self.old slot w before → IfOk result (λ started. IsStarted self.new slot w before enter started) }
    {
        match free_slot(self.slots.as_slice()) {
            Some(place) => {
                let serial = self.threads;
                self.put(place, name, argument, version)?;
                Ok(Some(ThreadRef {
                    slot: place,
                    serial,
                }))
            }
            None => Ok(None),
        }
    }

    /// Puts a new thread into a slot.
    fn put(
        &mut self,
        place: usize,
        name: Word,
        argument: Value,
        version: usize,
    ) -> Result<(), AllocError>
        requires { place < length self.old.slots.items }
        ensures put { OnOk result (IsPut self.old self.new place name argument version) }
        ensures same { self.new.program ≡ self.old.program }
    {
        let threads = later(self.threads)?;
        let alloc = *self.slots.allocator();
        let slot = entering(alloc, self.threads, name, argument, version)?;
        self.threads = threads;
        self.slots[place] = slot;
        Ok(())
    }

    /// Joins the thread that the newest value names.
    pub(crate) fn join(&mut self, at: Stopped) -> Result<bool, AllocError>
        requires { at.slot < length self.old.slots.items }
        ensures moves { let t = table_of self.old.program in (w : World) (before user : SeenThread)
            → IsStopped self.old at AtJoin w before user
            → Moves self.new w result (join (stands_at t w at user) (newest at.frame.work.values.items)) }
        ensures same { self.new.program ≡ self.old.program }
    {
        match handle(at.frame.work.values.as_slice()) {
            Some(named) => self.join_handle(at, named),
            None => self.stay(
                at.slot,
                at.thread,
                Next::Halt(at.frame, Halt::At(Stop::Join, at.point)),
            ),
        }
    }

    /// Joins the thread that a handle names, if it names one.
    fn join_handle(&mut self, at: Stopped, named: Option<ThreadRef>) -> Result<bool, AllocError>
        requires { at.slot < length self.old.slots.items }
        ensures moves { let t = table_of self.old.program in (w : World) (before user : SeenThread)
            → IsStopped self.old at AtJoin w before user
            → Moves self.new w result (join (stands_at t w at user) (IsStartedValue (option_map seen_thread named) ∷ drop 1 (newest at.frame.work.values.items))) }
        ensures same { self.new.program ≡ self.old.program }
    {
        match named {
            Some(named) => self.join_named(at, named),
            None => self.trap(
                at.slot,
                at.thread,
                Next::Halt(at.frame, Halt::Nothing),
                TrapKind::Join,
            ),
        }
    }

    /// Joins a thread: its slot is free again, and its result is the newest value.
    fn join_named(&mut self, at: Stopped, named: ThreadRef) -> Result<bool, AllocError>
        requires { at.slot < length self.old.slots.items }
        ensures moves { let t = table_of self.old.program in (w : World) (before user : SeenThread)
            → IsStopped self.old at AtJoin w before user
            → Moves self.new w result (join_slot (stands_at t w at user) (seen_thread named) (drop 1 (newest at.frame.work.values.items)) (in_slot w named.slot)) }
        ensures same { self.new.program ≡ self.old.program }
    {
        match result_of(self.slots.as_slice(), at.slot as usize, named) {
            Some(value) => self.take_result(at, named, value),
            None => self.trap(
                at.slot,
                at.thread,
                Next::Halt(at.frame, Halt::Nothing),
                TrapKind::Join,
            ),
        }
    }

    /// Takes the result of a thread that ended.
    fn take_result(
        &mut self,
        at: Stopped,
        named: ThreadRef,
        value: Value,
    ) -> Result<bool, AllocError>
        requires { at.slot < length self.old.slots.items }
        ensures moves { let t = table_of self.old.program in (w : World) (before user : SeenThread)
            → IsStopped self.old at AtJoin w before user → (named.slot ≡ at.slot → ⊥)
            → Moves self.new w result (goes_on (stands_at t w at user) (with_slot named.slot IsFree w) (seen value ∷ drop 1 (newest at.frame.work.values.items))) }
        ensures same { self.new.program ≡ self.old.program }
    {
        let Stopped {
            slot,
            thread,
            frame,
            point,
        } = at;
        let mut frame = frame;
        self.set_free(named.slot);
        discard(&mut frame.work.values);
        push(&mut frame.work.values, value)?;
        frame.standing = point;
        self.go_on(slot, thread, frame)
    }

    /// Makes a slot free, if there is one of that number.
    fn set_free(&mut self, place: usize)
        ensures same { self.new ≡ record self.old { slots = self.new.slots } }
        ensures slots { self.new.slots.items ≡ slice_set self.old.slots.items place FreeSlot }
    {
        if place < self.slots.len() {
            self.slots[place] = Slot::Free;
        }
    }

    /// Calls a function, whose enter is the next move; its arguments are the newest values.
    pub(crate) fn call(&mut self, at: Stopped, name: Word, count: usize) -> Result<bool, AllocError>
        requires { at.slot < length self.old.slots.items }
        ensures moves { let t = table_of self.old.program in (w : World) (before user : SeenThread)
            → IsStopped self.old at (AtCall name count) w before user
            → Moves self.new w result (call (stands_at t w at user) (word t name) count (newest at.frame.work.values.items)) }
        ensures same { self.new.program ≡ self.old.program }
    {
        let Stopped {
            slot,
            thread,
            frame,
            point,
        } = at;
        let mut frame = frame;
        let mut thread = thread;
        let arguments = take_arguments(&mut frame.work.values, count)?;
        let due = Enter {
            function: name,
            arguments,
            version: frame.version,
        };
        frame.standing = point;
        push_frame(&mut thread.below, frame)?;
        self.keep(slot, thread, Next::Enter(due));
        Ok(true)
    }

    /// Returns the newest value to the frame that called, or ends the thread with it.
    pub(crate) fn give_back(&mut self, at: Stopped) -> Result<bool, AllocError>
        requires { at.slot < length self.old.slots.items }
        ensures moves { let t = table_of self.old.program in (w : World) (before user : SeenThread)
            → IsStopped self.old at AtReturn w before user
            → Moves self.new w result (return (stands_at t w at user) (newest at.frame.work.values.items)) }
        ensures same { self.new.program ≡ self.old.program }
    {
        match last(at.frame.work.values.as_slice()) {
            Some(value) => self.give(at.slot, at.thread, at.frame, value),
            None => self.stay(
                at.slot,
                at.thread,
                Next::Halt(at.frame, Halt::At(Stop::Return, at.point)),
            ),
        }
    }

    /// Returns a value to the frame that called, or ends the thread with it.
    fn give(
        &mut self,
        slot: u8,
        thread: Thread,
        frame: Frame,
        value: Value,
    ) -> Result<bool, AllocError>
        requires { slot < length self.old.slots.items }
        ensures moves { let t = table_of self.old.program in (w : World) (before user : SeenThread) (point : ℕ) → StandsBut self.old slot w before
            → IsUser thread user → IsUser thread before
            → Moves self.new w result (return_to (standing_at t w slot thread frame point user) (seen value) (frames_of t thread.below.items)) }
        ensures same { self.new.program ≡ self.old.program }
    {
        let mut thread = thread;
        match pop_frame(&mut thread.below) {
            Some(caller) => {
                let mut caller = caller;
                push(&mut caller.work.values, value)?;
                self.go_on(slot, thread, caller)
            }
            None => self.finish(slot, thread, frame, value),
        }
    }

    /// A thread's first call returned: of slot 0, which is main's, the run ends; else the thread.
    fn finish(
        &mut self,
        slot: u8,
        thread: Thread,
        frame: Frame,
        value: Value,
    ) -> Result<bool, AllocError>
        requires { slot < length self.old.slots.items }
        ensures moves { (w : World) (before user : SeenThread) (point : ℕ) → StandsBut self.old slot w before
            → IsUser thread user → IsUser thread before
            → Moves self.new w result (finish_thread (standing_at (table_of self.old.program) w slot thread frame point user) (seen value) slot) }
        ensures same { self.new.program ≡ self.old.program }
    {
        if slot == 0 {
            self.finish = Some(Finish::Finished(number_of(value)));
            self.keep(slot, thread, Next::Halt(frame, Halt::Nothing));
        } else {
            self.leave(slot, thread.serial, value);
        }
        Ok(true)
    }

    /// A thread ends with a result.
    fn leave(&mut self, slot: u8, serial: usize, value: Value)
        requires { slot < length self.old.slots.items }
        ensures stands { (w : World) (before : SeenThread) → StandsBut self.old slot w before
            → Stands self.new (with_slot slot (IsOver serial (seen value)) w) }
        ensures same { self.new.program ≡ self.old.program }
    {
        self.slots[slot as usize] = Slot::Over(serial, value);
    }

    /// Begins a transaction.
    pub(crate) fn begin(&mut self, at: Stopped) -> Result<bool, AllocError>
        requires { at.slot < length self.old.slots.items }
        ensures moves { let t = table_of self.old.program in (w : World) (before user : SeenThread)
            → IsStopped self.old at AtBegin w before user
            → Moves self.new w result (begin_at (stands_at t w at user) user.depth (gone_on (stands_at t w at user) (newest at.frame.work.values.items))) }
        ensures same { self.new.program ≡ self.old.program }
    {
        let Stopped {
            slot,
            thread,
            frame,
            point,
        } = at;
        let mut thread = thread;
        let mut frame = frame;
        thread.depth = later(thread.depth)?;
        frame.standing = point;
        self.go_on(slot, thread, frame)
    }

    /// Ends the innermost transaction, if there is one.
    pub(crate) fn end(&mut self, at: Stopped) -> Result<bool, AllocError>
        requires { at.slot < length self.old.slots.items }
        ensures moves { let t = table_of self.old.program in (w : World) (before user : SeenThread)
            → IsStopped self.old at AtEnd w before user
            → Moves self.new w result (end_at (stands_at t w at user) user.depth (gone_on (stands_at t w at user) (newest at.frame.work.values.items))) }
        ensures same { self.new.program ≡ self.old.program }
    {
        match at.thread.depth {
            0 => self.stay(
                at.slot,
                at.thread,
                Next::Halt(at.frame, Halt::At(Stop::End, at.point)),
            ),
            _ => self.close(at),
        }
    }

    /// Ends the innermost of the transactions that a thread is in.
    fn close(&mut self, at: Stopped) -> Result<bool, AllocError>
        requires slot { at.slot < length self.old.slots.items }
        requires depth { 0 < at.thread.depth }
        ensures moves { let t = table_of self.old.program in (w : World) (before user : SeenThread)
            → IsStopped self.old at AtEnd w before user
            → Moves self.new w result (end_at (stands_at t w at user) user.depth (gone_on (stands_at t w at user) (newest at.frame.work.values.items))) }
        ensures same { self.new.program ≡ self.old.program }
    {
        let Stopped {
            slot,
            thread,
            frame,
            point,
        } = at;
        let mut thread = thread;
        let mut frame = frame;
        thread.depth -= 1;
        frame.standing = point;
        self.go_on(slot, thread, frame)
    }
}
