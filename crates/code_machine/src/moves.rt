//! A move of a thread.
ghost use Rattle.std.specs.Prelude.{◌≡◌, ◌+◌, ◌≤◌, [], ◌∷◌, IfOk, IsOk, IsTrue, List, MatchOption, OnOk, false, length, true, vec_capacity, ℕ};
ghost use Rattle.c_tree.specs.BareDef.{BareDef};
ghost use Rattle.local_evaluation.specs.Pieces.{stop_of};
ghost use Rattle.resolved_tree.specs.Nodes.{Table};
ghost use Rattle.code_runs.specs.CodeData.{Names};
ghost use Rattle.code_runs.specs.CodeThreads.{CodeWorld as World};
ghost use Rattle.code_runs.specs.CodeWaits.{Stays as CanNot};
ghost use Rattle.thread_state.specs.declared.steps.End.TheVariants.{Rests as RestsEnd, Traps as TrapsEnd};
ghost use Rattle.code_image.specs.declared.image.CodeImage.{CodeImage as Image};
ghost use Rattle.code_image.specs.Images.{names_in};
ghost use Rattle.code_machine.specs.declared.running.Next.TheVariants.{Enters as EntersNext, Stands as StandsNext};
ghost use Rattle.code_machine.specs.declared.running.Stand.TheVariants.{Live as LiveStand};
ghost use Rattle.code_machine.specs.Enough.{HasEnough};
ghost use Rattle.code_machine.specs.Keeping.{Keeps, SameRun, UsesNothing};
ghost use Rattle.code_machine.specs.Kept.{IsDueAt, IsKeptRun};
ghost use Rattle.code_machine.specs.Working.{IsStep};
ghost use Rattle.code_machine.specs.Versions.{IsReady, IsRunOf, texts_of};
ghost use Rattle.code_machine.specs.Leading.{LeadsNext, Led, has_moved, stop_leads};
ghost use Rattle.code_machine.specs.Seen.{world_of};
ghost use Rattle.code_machine.specs.Steps.{StepsTo};
ghost use Rattle.code_machine.specs.Stops.{IsAlone, Lives, LivesAt};

use crate::running::{Next, Running, Stand, innermost};
use crate::state::{Finish, RunState};
use crate::stops::Outcome;
use crate::thread_stops::{join, spawn};
use code_image::{Act, CodeImage, StopPlace};
use local_evaluation::Stop;
use run_types::TrapKind;
use std::alloc::AllocError;
use thread_state::End;

/// What came of a step.
#[derive(Clone, Copy, Debug, PartialEq, Eq)]
pub enum CodeStep {
    /// The thread can't move, and nothing changed.
    CannotMove,
    /// It moved; whether that led to a check-in.
    Moved(bool),
}

/// What came of a step, by whether the thread moved, and whether its move leads to a check-in.
fn stepped(moved: bool, leads: bool) -> CodeStep
    ensures moved { has_moved result ≡ moved }
    ensures led { (texts : List (List BareDef)) (names : Names) (image : Image) (w : World) (slot : ℕ) → LeadsNext texts names image w slot leads
        → Led texts names image w slot result }
{
    if moved {
        CodeStep::Moved(leads)
    } else {
        CodeStep::CannotMove
    }
}

/// Whether a stop leads to a check-in, by whether a frame called the one that stops.
fn stop_leads(stop: Stop, is_called: bool) -> bool
    ensures { (t : Table) → result ≡ stop_leads (stop_of t stop) is_called }
{
    match stop {
        Stop::Return => is_called,
        Stop::Begin | Stop::End | Stop::Update => true,
        _ => false,
    }
}

impl Running {
    /// What the thread that lives there does next, if one does.
    #[inline(always)]
    fn next_if_live(&self) -> Option<Next>
        ensures { MatchOption result (self.now.stand ≡ LiveStand → ⊥) (λ next. (self.now.stand ≡ LiveStand) × (self.now.next ≡ next)) }
    {
        match self.stand {
            Stand::Live => Some(self.next),
            Stand::Free | Stand::Over(_) => None,
        }
    }
}

impl RunState {
    /// Does the private work of the thread in a slot, if some is due.
    #[inline(always)]
    pub(crate) fn run_on(&mut self, image: &CodeImage, slot: u8)
        requires { IsKeptRun image.now self.old }
        ensures same { SameRun image.now self.old self.new }
        ensures leaves { self.new.leaves_work ≡ self.old.leaves_work }
        ensures settled { IsDueAt self.new slot → ⊥ }
    {
        if !self.leaves_work {
            return;
        }
        self.run_on_due(image, slot);
    }

    /// The same, where moves may have left some.
    #[cold]
    #[inline(never)]
    fn run_on_due(&mut self, image: &CodeImage, slot: u8)
        requires { IsKeptRun image.now self.old }
        ensures same { SameRun image.now self.old self.new }
        ensures leaves { self.new.leaves_work ≡ self.old.leaves_work }
        ensures settled { IsDueAt self.new slot → ⊥ }
    {
        let slot = slot as usize;
        if slot >= self.slots.len() {
            return;
        }
        self.slots[slot].run_on(image);
    }

    /// What the thread in a slot does next; none where none lives there, or where the run has ended.
    #[inline(always)]
    fn next_in(&self, slot: u8) -> Option<Next>
        ensures { MatchOption result
            ((texts : List (List BareDef)) (names : Names) (image : Image) → CanNot texts names (world_of image self.now) slot)
            (Lives self.now slot) }
    {
        if self.finish.is_some() {
            return None;
        }
        let slot = slot as usize;
        if slot >= self.slots.len() {
            return None;
        }
        self.slots[slot].next_if_live()
    }
}

/// Does the private work that is due in a slot, and makes the move of its thread, if it can be made. The private work that follows is
/// done, or left for later.
#[inline(always)]
pub(crate) fn work_and_step(
    image: &CodeImage,
    run: &mut RunState,
    slot: u8,
) -> Result<CodeStep, AllocError>
    requires { IsKeptRun image.now run.old }
    ensures { IsStep image.now slot run.old run.new result }
{
    run.run_on(image, slot);
    step(image, run, slot)
}

/// Makes the move of the thread in a slot, which has no private work to do, if it can be made.
#[inline(always)]
fn step(image: &CodeImage, run: &mut RunState, slot: u8) -> Result<CodeStep, AllocError>
    requires kept { IsKeptRun image.now run.old }
    requires settled { IsDueAt run.old slot → ⊥ }
    ensures keeps { Keeps image.now run.old run.new }
    ensures stays { IfOk result (λ step. has_moved step ≡ false → UsesNothing run.old run.new) }
    ensures came { (all : List (List BareDef)) → IsReady all image.now run.old slot
        → IfOk result (λ step. StepsTo all image.now slot run.old run.new (has_moved step)) }
    ensures led { (all : List (List BareDef)) → IsRunOf all image.now run.old
        → IfOk result (Led (texts_of all run.old) (names_in all) image.now (world_of image.now run.old) slot) }
    ensures long { OnOk result (length run.new.output.items ≤ length run.old.output.items + image.now.longest_print) }
    ensures capacity { vec_capacity run.old.output ≤ vec_capacity run.new.output }
    ensures enough { HasEnough image.now run.old slot → IsOk result }
{
    match run.next_in(slot) {
        None => Ok(CodeStep::CannotMove),
        Some(Next::Continues) => Ok(CodeStep::CannotMove),
        Some(Next::Enters(n, count)) => Ok(stepped(enter(image, run, slot, n, count), true)),
        Some(Next::Stands(End::Traps(kind))) => Ok(stepped(trap(image, run, slot, kind), false)),
        Some(Next::Stands(End::Rests)) => stop(image, run, slot),
    }
}

/// A thread enters a function, in the version in force. Where it has as many frames as it may have, that traps. It can't enter a function
/// that the text in force doesn't have.
#[inline(always)]
fn enter(image: &CodeImage, run: &mut RunState, slot: u8, n: u32, count: usize) -> bool
    requires kept { IsKeptRun image.now run.old }
    requires lives { Lives run.old slot (EntersNext n count) }
    ensures keeps { Keeps image.now run.old run.new }
    ensures stays { result ≡ false → UsesNothing run.old run.new }
    ensures came { (all : List (List BareDef)) → IsReady all image.now run.old slot → StepsTo all image.now slot run.old run.new result }
    ensures output { run.new.output ≡ run.old.output }
{
    if run.slots[slot as usize].frames.is_full() {
        run.finish = Some(Finish::Trapped(TrapKind::Depth, slot));
        return true;
    }
    let Some(function) = image.body(run.in_force, n) else {
        return false;
    };
    let version = run.versions.len() as u32;
    run.slots[slot as usize].enter(image, version, function, n, count);
    true
}

/// An operator of a thread traps.
#[inline(always)]
fn trap(image: &CodeImage, run: &mut RunState, slot: u8, kind: TrapKind) -> bool
    requires kept { IsKeptRun image.now run.old }
    requires lives { Lives run.old slot (StandsNext (TrapsEnd kind)) }
    ensures keeps { Keeps image.now run.old run.new }
    ensures stays { result ≡ false → UsesNothing run.old run.new }
    ensures came { (all : List (List BareDef)) → IsReady all image.now run.old slot → StepsTo all image.now slot run.old run.new result }
    ensures output { run.new.output ≡ run.old.output }
{
    run.finish = Some(Finish::Trapped(kind, slot));
    true
}

/// A thread makes the stop at which its innermost frame rests.
#[inline(always)]
fn stop(image: &CodeImage, run: &mut RunState, slot: u8) -> Result<CodeStep, AllocError>
    requires kept { IsKeptRun image.now run.old }
    requires lives { Lives run.old slot (StandsNext RestsEnd) }
    ensures keeps { Keeps image.now run.old run.new }
    ensures stays { IfOk result (λ step. has_moved step ≡ false → UsesNothing run.old run.new) }
    ensures came { (all : List (List BareDef)) → IsReady all image.now run.old slot
        → IfOk result (λ step. StepsTo all image.now slot run.old run.new (has_moved step)) }
    ensures led { (all : List (List BareDef)) → IsRunOf all image.now run.old
        → IfOk result (Led (texts_of all run.old) (names_in all) image.now (world_of image.now run.old) slot) }
    ensures long { OnOk result (length run.new.output.items ≤ length run.old.output.items + image.now.longest_print) }
    ensures capacity { vec_capacity run.old.output ≤ vec_capacity run.new.output }
    ensures enough { HasEnough image.now run.old slot → IsOk result }
{
    let running = &run.slots[slot as usize];
    let frame = innermost(&running.frames);
    let is_called = running.frames.depth() > 1;
    let Some(stop) = image.function(frame.unit).stop_at(frame.place) else {
        return Ok(CodeStep::CannotMove);
    };
    let leads = stop_leads(stop.stop, is_called);
    match make_stop(image, run, slot, stop) {
        Ok(moved) => Ok(stepped(moved, leads)),
        Err(error) => Err(error),
    }
}

/// A thread makes a stop at which it rests. The answer is whether it can be made.
#[inline(always)]
fn make_stop(
    image: &CodeImage,
    run: &mut RunState,
    slot: u8,
    stop: &StopPlace,
) -> Result<bool, AllocError>
    requires kept { IsKeptRun image.now run.old }
    requires lives { LivesAt image.now.functions.items (length image.now.callees.items) run.old slot stop.now }
    ensures keeps { Keeps image.now run.old run.new }
    ensures stays { IfOk result (λ moved. moved ≡ false → UsesNothing run.old run.new) }
    ensures came { (all : List (List BareDef)) → IsReady all image.now run.old slot → IfOk result (StepsTo all image.now slot run.old run.new) }
    ensures long { OnOk result (length run.new.output.items ≤ length run.old.output.items + image.now.longest_print) }
    ensures capacity { vec_capacity run.old.output ≤ vec_capacity run.new.output }
    ensures enough { HasEnough image.now run.old slot → IsOk result }
{
    if is_alone(&stop.act) {
        return alone(image, run, slot, stop);
    }
    with_others(image, run, slot, stop)
}

/// Whether an act changes no other thread.
#[inline(always)]
fn is_alone(act: &Act) -> bool
    ensures alone { IsTrue result → IsAlone act.now }
    ensures others { result ≡ false → IsAlone act.now → ⊥ }
{
    match act {
        Act::Spawn(_) | Act::Join => false,
        _ => true,
    }
}

/// A thread makes a stop that changes other threads: it starts one, or joins one.
fn with_others(
    image: &CodeImage,
    run: &mut RunState,
    slot: u8,
    stop: &StopPlace,
) -> Result<bool, AllocError>
    requires kept { IsKeptRun image.now run.old }
    requires lives { LivesAt image.now.functions.items (length image.now.callees.items) run.old slot stop.now }
    requires others { IsAlone stop.now.act → ⊥ }
    ensures keeps { Keeps image.now run.old run.new }
    ensures stays { IfOk result (λ moved. moved ≡ false → UsesNothing run.old run.new) }
    ensures came { (all : List (List BareDef)) → IsReady all image.now run.old slot → IfOk result (StepsTo all image.now slot run.old run.new) }
    ensures output { run.new.output ≡ run.old.output }
    ensures enough { HasEnough image.now run.old slot → IsOk result }
{
    match stop.act {
        Act::Spawn(n) => spawn(image, run, slot, stop, n),
        Act::Join => Ok(join(image, run, slot, stop)),
        _ => Ok(false),
    }
}

/// A thread makes a stop that changes no other thread.
#[inline(always)]
fn alone(
    image: &CodeImage,
    run: &mut RunState,
    slot: u8,
    stop: &StopPlace,
) -> Result<bool, AllocError>
    requires kept { IsKeptRun image.now run.old }
    requires lives { LivesAt image.now.functions.items (length image.now.callees.items) run.old slot stop.now }
    requires alone { IsAlone stop.now.act }
    ensures keeps { Keeps image.now run.old run.new }
    ensures stays { IfOk result (λ moved. moved ≡ false → UsesNothing run.old run.new) }
    ensures came { (all : List (List BareDef)) → IsReady all image.now run.old slot → IfOk result (StepsTo all image.now slot run.old run.new) }
    ensures long { OnOk result (length run.new.output.items ≤ length run.old.output.items + image.now.longest_print) }
    ensures capacity { vec_capacity run.old.output ≤ vec_capacity run.new.output }
    ensures enough { HasEnough image.now run.old slot → IsOk result }
{
    let running = &mut run.slots[slot as usize];
    match running.make(
        image,
        slot,
        stop,
        &run.layouts,
        &mut run.shared,
        &mut run.output,
    )? {
        Outcome::Goes => Ok(true),
        Outcome::Stays => Ok(false),
        Outcome::Ends(finish) => {
            run.finish = Some(finish);
            Ok(true)
        }
    }
}
