//! Which threads can move, and how the run stands. Nothing changes here.
ghost use Rattle.std.specs.Prelude.{◌≡◌, ◌||◌, ℕ, List, drop, false};
ghost use Rattle.std.specs.Option.{is_some};
ghost use Rattle.c_ints.specs.Number.{value_of, reduced};
ghost use Rattle.c_ints.specs.declared.kind.Kind.TheVariants.{I32};
ghost use Rattle.c_semantics.specs.Threads.{Frame as SeenFrame, Thread as SeenThread};
ghost use Rattle.source_model.specs.Guards.{frames_lead, leads, move_leads};
ghost use Rattle.source_model.specs.Moves.{stop_made, thread_move};
ghost use Rattle.source_model.specs.Runs.{can_move, is_live, some_can_move, some_lives, state};
ghost use Rattle.source_model.specs.Worlds.{World, in_slot, is_over};
ghost use Rattle.source_runner.specs.Frames.{frames_of};
ghost use Rattle.source_runner.specs.Machines.{IsThread, Stands, frame_at};
ghost use Rattle.source_runner.specs.Makes.{can_make, has_values, is_handle, is_number, is_reference};
ghost use Rattle.resolved_tree.specs.Nodes.{Table};
ghost use Rattle.local_evaluation.specs.Pieces.{stop_of};
ghost use Rattle.source_programs.specs.Programs.{table_of};
ghost use Rattle.source_runner.specs.States.{as_int, ending_of, state_of};
ghost use Rattle.local_evaluation.specs.Work.{newest};

use crate::machine::{Finish, Machine};
use crate::thread::{Frame, Next, Slot, Thread};
use c_ints::{Int, Kind, convert};
use local_evaluation::stack::last;
use local_evaluation::{Halt, Stop, Value};
use run_types::{Ending, TrapKind};

/// How a run stands.
#[derive(Clone, Copy, Debug, PartialEq, Eq)]
pub enum SourceState {
    /// The first call of `main` returned this, as an `int`.
    Finished(i32),
    /// The thread in a slot trapped.
    Trap(TrapKind, u8),
    /// A thread lives and none can move.
    Stuck,
    Going,
}

impl Machine {
    /// How the run stands.
    pub(crate) fn state(&self) -> SourceState
        ensures { (w : World) → Stands self.now w → state_of result ≡ as_int (state w) }
    {
        match self.finish {
            Some(Finish::Finished(n)) => SourceState::Finished(as_int(n)),
            Some(Finish::Trapped(kind, slot)) => SourceState::Trap(kind, slot),
            None if self.some_lives() && !self.some_can_move() => SourceState::Stuck,
            None => SourceState::Going,
        }
    }

    /// How the run has ended, if `main` returned or a thread trapped.
    pub(crate) fn ending(&self) -> Option<Ending>
        ensures { (w : World) → Stands self.now w → result ≡ ending_of w.finish }
    {
        match self.finish {
            Some(Finish::Finished(n)) => Some(Ending::Finished(as_int(n))),
            Some(Finish::Trapped(kind, slot)) => Some(Ending::Trap(kind, slot)),
            None => None,
        }
    }

    /// Whether some thread can move.
    pub(crate) fn some_can_move(&self) -> bool
        ensures { (w : World) → Stands self.now w → result ≡ some_can_move w }
    {
        for slot in 0..self.slots.len() {
            if self.can_move(slot) {
                return true;
            }
        }
        false
    }

    /// Whether a thread lives in some slot.
    pub(crate) fn some_lives(&self) -> bool
        ensures { (w : World) → Stands self.now w → result ≡ some_lives w }
    {
        for slot in 0..self.slots.len() {
            if self.is_live(slot) {
                return true;
            }
        }
        false
    }

    /// Whether a thread lives in a slot.
    pub(crate) fn is_live(&self, slot: usize) -> bool
        ensures { (w : World) → Stands self.now w → result ≡ is_live (in_slot w slot) }
    {
        matches!(self.slots.get(slot), Some(Slot::Live(_, _)))
    }

    /// Whether the next move of the thread in a slot leads to a check-in: it enters, returns to a caller, begins or ends a
    /// transaction, or is at an update point.
    pub(crate) fn leads(&self, slot: usize) -> bool
        ensures { (w : World) → Stands self.now w → is_over w ≡ false → result ≡ move_leads (in_slot w slot) }
    {
        match self.slots.get(slot) {
            Some(Slot::Live(thread, next)) => next_leads(thread, next),
            _ => false,
        }
    }

    /// Whether the thread in a slot can move.
    pub(crate) fn can_move(&self, slot: usize) -> bool
        ensures { (w : World) → Stands self.now w → result ≡ can_move w slot }
    {
        if self.must_stay(slot) {
            return false;
        }
        match self.slots.get(slot) {
            Some(Slot::Live(thread, next)) => self.can_act(thread, next),
            _ => false,
        }
    }

    /// Whether a thread can do what it does next, in a run that goes on.
    fn can_act(&self, thread: &Thread, next: &Next) -> bool
        ensures { (w : World) (slot : ℕ) (own : SeenThread) → Stands self.now w
            → IsThread (table_of self.now.program) false thread.now next.now own
            → result ≡ is_some (thread_move w slot own own.entering) }
    {
        match next {
            Next::Enter(_) => true,
            Next::Halt(frame, halt) => match *halt {
                Halt::At(stop, _) => self.can_stop(thread.depth, frame, stop),
                Halt::Trap(_) => true,
                Halt::Nothing => false,
            },
        }
    }

    /// Whether a thread in that many transactions can make a stop, or misuses a definition by it.
    fn can_stop(&self, depth: usize, frame: &Frame, stop: Stop) -> bool
        ensures { let t = table_of self.now.program in (w : World) (slot : ℕ) (own : SeenThread) (point : ℕ) (below : List SeenFrame)
            → Stands self.now w → own.depth ≡ depth
            → result ≡ is_some (stop_made (stop_of t stop) w slot own (frame_at t frame.now point) below) }
    {
        !self.is_right(frame.version, stop) || can_make(depth, frame.work.values.as_slice(), stop)
    }
}

/// What was returned, as an `int`.
fn as_int(n: Int) -> i32
    ensures { result ≡ reduced I32 (value_of n) }
{
    match convert(n, Kind::I32) {
        Int::I32(n) => n,
        _ => 0,
    }
}

/// Whether what a thread does next leads to a check-in.
fn next_leads(thread: &Thread, next: &Next) -> bool
    ensures { (t : Table) (own : SeenThread) → IsThread t false thread.now next.now own
        → result ≡ (is_some own.entering || frames_lead own.frames) }
{
    match next {
        Next::Enter(_) => true,
        Next::Halt(_, Halt::At(stop, _)) => stop_leads(*stop, thread.below.as_slice()),
        Next::Halt(_, Halt::Trap(_) | Halt::Nothing) => false,
    }
}

/// Whether a stop over the frames that wait leads to a check-in.
fn stop_leads(stop: Stop, below: &[Frame]) -> bool
    ensures { (t : Table) → result ≡ leads (stop_of t stop) (frames_of t below.now) }
{
    match stop {
        Stop::Return => !below.is_empty(),
        Stop::Begin | Stop::End | Stop::Update => true,
        _ => false,
    }
}

/// Whether a thread in that many transactions can make a stop with these values.
fn can_make(depth: usize, values: &[Value], stop: Stop) -> bool
    ensures { (t : Table) → result ≡ can_make (stop_of t stop) depth (newest values.now) }
{
    match stop {
        Stop::End => depth > 0,
        _ => has_values(stop, values),
    }
}

/// Whether the values that a stop takes are there.
fn has_values(stop: Stop, values: &[Value]) -> bool
    ensures { (t : Table) → result ≡ has_values (stop_of t stop) (newest values.now) }
{
    match stop {
        Stop::WriteGlobal(_) | Stop::Spawn(_) | Stop::Return => !values.is_empty(),
        Stop::ReadElement(_) => is_number(values),
        Stop::WriteElement(_) => is_number(under(values)),
        Stop::ReadField(_, _) | Stop::Free(_) => is_reference(values),
        Stop::WriteField(_, _) => is_reference(under(values)),
        Stop::Join => is_handle(values),
        _ => true,
    }
}

/// The values under the newest.
fn under(values: &[Value]) -> &[Value]
    ensures { newest result.now ≡ drop 1 (newest values.now) }
{
    match values {
        [under @ .., _] => under,
        [] => values,
    }
}

/// Whether the newest value is a number.
fn is_number(values: &[Value]) -> bool
    ensures { result ≡ is_number (newest values.now) }
{
    matches!(last(values), Some(Value::Number(_)))
}

/// Whether the newest value is a handle of a thread.
fn is_handle(values: &[Value]) -> bool
    ensures { result ≡ is_handle (newest values.now) }
{
    matches!(last(values), Some(Value::Started(_)))
}

/// Whether the newest value is a handle of an object.
fn is_reference(values: &[Value]) -> bool
    ensures { result ≡ is_reference (newest values.now) }
{
    matches!(last(values), Some(Value::Reference(_)))
}
