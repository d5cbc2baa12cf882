//! Stops that change no other thread.
ghost use Rattle.std.specs.Prelude.{◌≡◌, ◌+◌, ◌<◌, ◌≤◌, ◌^◌, IfOk, List, OnErr, OnOk, length, suc, vec_capacity, ℕ};
ghost use Rattle.c_tree.specs.BareDef.{BareDef};
ghost use Rattle.program_locks.specs.Slots.{most_slots};
ghost use Rattle.bytecode.specs.Words.{number_at};
ghost use Rattle.c_ints.specs.declared.kind.Kind.TheVariants.{I32};
ghost use Rattle.c_semantics.specs.Stops as seen_stop;
ghost use Rattle.version_laws.specs.Histories.{last_text};
ghost use Rattle.resolved_tree.specs.Nodes.{Table};
ghost use Rattle.resolved_tree.specs.Trees.{table};
ghost use Rattle.code_runs.specs.CodeData.{Data, Names};
ghost use Rattle.code_runs.specs.Layouts.{Freshens};
ghost use Rattle.word_data.specs.Lengths.{longest_of};
ghost use Rattle.word_data.specs.Performing.{MayFail};
ghost use Rattle.word_data.specs.Resolved.{Resolves, takes};
ghost use Rattle.word_data.specs.Stacks.{stack_of};
ghost use Rattle.word_layouts.specs.WordChanges.{StandFor};
ghost use Rattle.word_installs.specs.Freshened.{HasLayouts, NumbersStructs};
ghost use Rattle.word_frames.specs.Seen.{depth_of};
ghost use Rattle.code_image.specs.declared.act.Act.TheVariants.{Begin as BeginAct, Call as CallAct, End as EndAct, Pass as PassAct, Return as ReturnAct, Shared as SharedAct};
ghost use Rattle.code_image.specs.Images.{names_in};
ghost use Rattle.code_image.specs.StopHeights.{act_prints};
ghost use Rattle.code_machine.specs.declared.stops.Outcome.TheVariants.{Stays as StaysOutcome};
ghost use Rattle.code_machine.specs.Enough.{ActMayFail};
ghost use Rattle.code_machine.specs.Kept.{FitsImage};
ghost use Rattle.code_machine.specs.Seen.{finish_of};
ghost use Rattle.code_machine.specs.Versions.{RunsCode, UsesObjectsWell, texts_by};
ghost use Rattle.source_model.specs.Worlds.{Finished as IsFinished};
ghost use Rattle.code_machine.specs.Stops.{IsAlone, LeavesStack, RestsAt, Resumed, SameThread, Stopped, StoppedAlone};

use crate::running::{Next, Running, Stand, innermost};
use crate::state::Finish;
use code_image::{Act, CodeImage, StopPlace};
use std::alloc::AllocError;
use word_data::{Did, SharedStop, Stack, WordData};
use word_installs::freshen;
use word_layouts::WordLayouts;

/// What a stop of a thread came to.
#[derive(Clone, Copy)]
pub(crate) enum Outcome {
    /// It was made, and the run goes on.
    Goes,
    /// It can't be made.
    Stays,
    /// It was made, and the run has ended.
    Ends(Finish),
}

/// The `int` of a word.
fn int_of(word: u64) -> i32
    ensures { result ≡ number_at I32 word }
{
    ((word & 0xffff_ffff) as u32).cast_signed()
}

/// How a run ends where the first call of `main` returns a word.
fn finish_with(word: u64) -> Finish
    ensures { finish_of result ≡ IsFinished (number_at I32 word) }
{
    Finish::Finished(int_of(word))
}

/// Brings the object that a stop uses to the text in force, once a newer text was installed: before, each object has the layout of the
/// one text.
#[inline(always)]
fn freshen_newer(
    shared: &mut WordData,
    layouts: &WordLayouts,
    stop: &SharedStop,
    words: &[u64],
    stack: Stack,
)
    requires taken { takes stop.now ≤ stack.height }
    requires space { stack.low + stack.height ≤ length words.now }
    ensures freshens { (t : Table) (names : Names) (texts : List (List BareDef)) (text : List BareDef) (seen : seen_stop.Stop)
        → Resolves t names text seen stop.now → StandFor texts names.tags layouts.now.versions.items
        → shared.old.version + 1 ≡ length texts → HasLayouts shared.old → NumbersStructs names (last_text texts)
        → Freshens texts names seen (stack_of words.now stack) shared.old shared.new }
    ensures version { shared.new.version ≡ shared.old.version }
    ensures created { shared.new.objects.created ≡ shared.old.objects.created }
{
    if shared.version() > 0 {
        freshen(shared, layouts, *stop, words, stack);
    }
}

impl Running {
    /// Makes a stop that changes no other thread, by its act.
    #[inline(always)]
    pub(crate) fn make(
        &mut self,
        image: &CodeImage,
        slot: u8,
        stop: &StopPlace,
        layouts: &WordLayouts,
        shared: &mut WordData,
        output: &mut Vec<u8>,
    ) -> Result<Outcome, AllocError>
        requires slot { slot < most_slots }
        requires rests { RestsAt image.now.functions.items (length image.now.callees.items) self.old stop.now }
        requires alone { IsAlone stop.now.act }
        ensures fits { FitsImage image.now self.new }
        ensures runs { (all : List (List BareDef)) (versions : List ℕ) → RunsCode all versions image.now self.old
            → RunsCode all versions image.now self.new }
        ensures made { (all : List (List BareDef)) (versions : List ℕ) → RunsCode all versions image.now self.old
            → UsesObjectsWell all versions layouts.now image.now self.old shared.old → IfOk result
            (Stopped (texts_by all versions) (names_in all) image.now slot stop.now self.old self.new shared.old shared.new output.old.items output.new.items) }
        ensures version { shared.new.version ≡ shared.old.version }
        ensures created { (n : ℕ) → shared.old.objects.created ≤ n → shared.new.objects.created ≤ 1 + n }
        ensures depth { self.new.depth ≤ 1 + self.old.depth }
        ensures leaves { self.new.leaves_work ≡ self.old.leaves_work }
        ensures stays { IfOk result (λ outcome. outcome ≡ StaysOutcome
            → (shared.new.objects.created ≡ shared.old.objects.created) × (output.new ≡ output.old) × (self.new.depth ≡ self.old.depth)) }
        ensures long { OnOk result (length output.new.items ≤ length output.old.items + act_prints (table image.now.trees) stop.now.act) }
        ensures capacity { vec_capacity output.old ≤ vec_capacity output.new }
        ensures cause { OnErr result (ActMayFail (table image.now.trees) stop.now.act self.old.depth shared.old output.old) }
    {
        match stop.act {
            Act::Shared(what) => self.perform(image, slot, stop, what, layouts, shared, output),
            Act::Call(n, count) => Ok(self.call(image, stop, n, count)),
            Act::Return => Ok(self.give_back(image, slot, stop)),
            Act::Begin => self.begin(image, stop),
            Act::End => Ok(self.end(image, stop)),
            Act::Pass => Ok(self.pass(image, stop)),
            Act::Spawn(_) | Act::Join => Ok(Outcome::Stays),
        }
    }

    /// Makes a stop on what threads share.
    fn perform(
        &mut self,
        image: &CodeImage,
        slot: u8,
        stop: &StopPlace,
        what: SharedStop,
        layouts: &WordLayouts,
        shared: &mut WordData,
        output: &mut Vec<u8>,
    ) -> Result<Outcome, AllocError>
        requires slot { slot < most_slots }
        requires rests { RestsAt image.now.functions.items (length image.now.callees.items) self.old stop.now }
        requires act { stop.now.act ≡ SharedAct what }
        ensures fits { FitsImage image.now self.new }
        ensures runs { (all : List (List BareDef)) (versions : List ℕ) → RunsCode all versions image.now self.old
            → RunsCode all versions image.now self.new }
        ensures made { (all : List (List BareDef)) (versions : List ℕ) → RunsCode all versions image.now self.old
            → UsesObjectsWell all versions layouts.now image.now self.old shared.old → IfOk result
            (Stopped (texts_by all versions) (names_in all) image.now slot stop.now self.old self.new shared.old shared.new output.old.items output.new.items) }
        ensures version { shared.new.version ≡ shared.old.version }
        ensures created { (n : ℕ) → shared.old.objects.created ≤ n → shared.new.objects.created ≤ 1 + n }
        ensures depth { self.new.depth ≡ self.old.depth }
        ensures leaves { self.new.leaves_work ≡ self.old.leaves_work }
        ensures stays { IfOk result (λ outcome. outcome ≡ StaysOutcome
            → (shared.new.objects.created ≡ shared.old.objects.created) × (output.new ≡ output.old)) }
        ensures long { OnOk result (length output.new.items ≤ length output.old.items + longest_of (table image.now.trees) what) }
        ensures capacity { vec_capacity output.old ≤ vec_capacity output.new }
        ensures cause { OnErr result (MayFail (table image.now.trees) what shared.old output.old) }
    {
        let (low, height) = self.frames.stack();
        freshen_newer(
            shared,
            layouts,
            &what,
            self.frames.words.as_slice(),
            Stack { low, height },
        );
        let did = shared.perform(
            &image.trees,
            slot,
            what,
            &mut self.frames.words,
            Stack { low, height },
            output,
        )?;
        match did {
            Did::On(height) => {
                self.go_on(image, stop.point, stop.after, height);
                Ok(Outcome::Goes)
            }
            Did::Trap(kind) => Ok(Outcome::Ends(Finish::Trapped(kind, slot))),
            Did::Waits(_) => Ok(Outcome::Stays),
        }
    }

    /// Calls a function: the frame waits after the call, and the enter is due.
    #[inline(always)]
    fn call(&mut self, image: &CodeImage, stop: &StopPlace, n: u32, count: usize) -> Outcome
        requires rests { RestsAt image.now.functions.items (length image.now.callees.items) self.old stop.now }
        requires act { stop.now.act ≡ CallAct n count }
        ensures fits { FitsImage image.now self.new }
        ensures runs { (all : List (List BareDef)) (versions : List ℕ) → RunsCode all versions image.now self.old
            → RunsCode all versions image.now self.new }
        ensures made { (all : List (List BareDef)) (versions : List ℕ) → RunsCode all versions image.now self.old → StoppedAlone (texts_by all versions) (names_in all) image.now stop.now self.old self.new result }
        ensures depth { self.new.depth ≡ self.old.depth }
        ensures leaves { self.new.leaves_work ≡ self.old.leaves_work }
    {
        self.version = innermost(&self.frames).version;
        self.frames.wait(count, stop.point, stop.after);
        self.next = Next::Enters(n, count);
        Outcome::Goes
    }

    /// Returns the newest word: to the frame that called, or else the thread ends with it.
    #[inline(always)]
    fn give_back(&mut self, image: &CodeImage, slot: u8, stop: &StopPlace) -> Outcome
        requires rests { RestsAt image.now.functions.items (length image.now.callees.items) self.old stop.now }
        requires act { stop.now.act ≡ ReturnAct }
        ensures fits { FitsImage image.now self.new }
        ensures runs { (all : List (List BareDef)) (versions : List ℕ) → RunsCode all versions image.now self.old
            → RunsCode all versions image.now self.new }
        ensures made { (all : List (List BareDef)) (versions : List ℕ) → RunsCode all versions image.now self.old → (d : Data) (output : List ℕ)
            → Stopped (texts_by all versions) (names_in all) image.now slot stop.now self.old self.new d d output output result }
        ensures depth { self.new.depth ≡ self.old.depth }
        ensures leaves { self.new.leaves_work ≡ self.old.leaves_work }
    {
        if self.frames.depth() > 1 {
            self.hand_down(image, stop)
        } else {
            self.finish(image, slot, stop)
        }
    }

    /// Returns the newest word to the frame that called, which goes on.
    #[inline(always)]
    fn hand_down(&mut self, image: &CodeImage, stop: &StopPlace) -> Outcome
        requires rests { RestsAt image.now.functions.items (length image.now.callees.items) self.old stop.now }
        requires act { stop.now.act ≡ ReturnAct }
        requires called { 1 < depth_of self.old.frames }
        ensures fits { FitsImage image.now self.new }
        ensures runs { (all : List (List BareDef)) (versions : List ℕ) → RunsCode all versions image.now self.old
            → RunsCode all versions image.now self.new }
        ensures made { (all : List (List BareDef)) (versions : List ℕ) → RunsCode all versions image.now self.old → StoppedAlone (texts_by all versions) (names_in all) image.now stop.now self.old self.new result }
        ensures depth { self.new.depth ≡ self.old.depth }
        ensures leaves { self.new.leaves_work ≡ self.old.leaves_work }
    {
        self.frames.leave();
        let caller = innermost(&self.frames);
        self.go_on(image, caller.point, caller.place, caller.height);
        Outcome::Goes
    }

    /// The first call of a thread returns: of slot 0, which is main's, the run ends; else the thread.
    fn finish(&mut self, image: &CodeImage, slot: u8, stop: &StopPlace) -> Outcome
        requires rests { RestsAt image.now.functions.items (length image.now.callees.items) self.old stop.now }
        requires act { stop.now.act ≡ ReturnAct }
        requires first { depth_of self.old.frames ≤ 1 }
        ensures fits { FitsImage image.now self.new }
        ensures runs { (all : List (List BareDef)) (versions : List ℕ) → RunsCode all versions image.now self.old
            → RunsCode all versions image.now self.new }
        ensures made { (all : List (List BareDef)) (versions : List ℕ) → RunsCode all versions image.now self.old → (d : Data) (output : List ℕ)
            → Stopped (texts_by all versions) (names_in all) image.now slot stop.now self.old self.new d d output output result }
        ensures depth { self.new.depth ≡ self.old.depth }
        ensures leaves { self.new.leaves_work ≡ self.old.leaves_work }
    {
        let word = self.frames.newest();
        if slot == 0 {
            return Outcome::Ends(finish_with(word));
        }
        self.stand = Stand::Over(word);
        Outcome::Goes
    }

    /// Begins a transaction. An error where it would be in more than a number can say.
    fn begin(&mut self, image: &CodeImage, stop: &StopPlace) -> Result<Outcome, AllocError>
        requires rests { RestsAt image.now.functions.items (length image.now.callees.items) self.old stop.now }
        requires act { stop.now.act ≡ BeginAct }
        ensures fits { FitsImage image.now self.new }
        ensures runs { (all : List (List BareDef)) (versions : List ℕ) → RunsCode all versions image.now self.old
            → RunsCode all versions image.now self.new }
        ensures made { (all : List (List BareDef)) (versions : List ℕ) → RunsCode all versions image.now self.old → IfOk result (StoppedAlone (texts_by all versions) (names_in all) image.now stop.now self.old self.new) }
        ensures cause { OnErr result (2 ^ 64 ≤ suc self.old.depth) }
        ensures depth { self.new.depth ≤ 1 + self.old.depth }
        ensures leaves { self.new.leaves_work ≡ self.old.leaves_work }
        ensures stays { IfOk result (λ outcome. outcome ≡ StaysOutcome → self.new.depth ≡ self.old.depth) }
    {
        let Some(depth) = self.depth.checked_add(1) else {
            return Err(AllocError);
        };
        self.resume(image, stop);
        self.depth = depth;
        Ok(Outcome::Goes)
    }

    /// Ends the innermost transaction, if it is in one.
    fn end(&mut self, image: &CodeImage, stop: &StopPlace) -> Outcome
        requires rests { RestsAt image.now.functions.items (length image.now.callees.items) self.old stop.now }
        requires act { stop.now.act ≡ EndAct }
        ensures fits { FitsImage image.now self.new }
        ensures runs { (all : List (List BareDef)) (versions : List ℕ) → RunsCode all versions image.now self.old
            → RunsCode all versions image.now self.new }
        ensures made { (all : List (List BareDef)) (versions : List ℕ) → RunsCode all versions image.now self.old → StoppedAlone (texts_by all versions) (names_in all) image.now stop.now self.old self.new result }
        ensures depth { self.new.depth ≤ 1 + self.old.depth }
        ensures leaves { self.new.leaves_work ≡ self.old.leaves_work }
        ensures stays { result ≡ StaysOutcome → self.new.depth ≡ self.old.depth }
    {
        if self.depth == 0 {
            return Outcome::Stays;
        }
        let depth = self.depth - 1;
        self.resume(image, stop);
        self.depth = depth;
        Outcome::Goes
    }

    /// Does nothing, and goes on.
    #[inline(always)]
    fn pass(&mut self, image: &CodeImage, stop: &StopPlace) -> Outcome
        requires rests { RestsAt image.now.functions.items (length image.now.callees.items) self.old stop.now }
        requires act { stop.now.act ≡ PassAct }
        ensures fits { FitsImage image.now self.new }
        ensures runs { (all : List (List BareDef)) (versions : List ℕ) → RunsCode all versions image.now self.old
            → RunsCode all versions image.now self.new }
        ensures made { (all : List (List BareDef)) (versions : List ℕ) → RunsCode all versions image.now self.old → StoppedAlone (texts_by all versions) (names_in all) image.now stop.now self.old self.new result }
        ensures depth { self.new.depth ≡ self.old.depth }
        ensures leaves { self.new.leaves_work ≡ self.old.leaves_work }
    {
        self.resume(image, stop);
        Outcome::Goes
    }

    /// Goes on after a stop that leaves the stack as it is.
    #[inline(always)]
    fn resume(&mut self, image: &CodeImage, stop: &StopPlace)
        requires rests { RestsAt image.now.functions.items (length image.now.callees.items) self.old stop.now }
        requires plain { LeavesStack stop.now.act }
        ensures fits { FitsImage image.now self.new }
        ensures runs { (all : List (List BareDef)) (versions : List ℕ) → RunsCode all versions image.now self.old
            → RunsCode all versions image.now self.new }
        ensures same { SameThread self.old self.new }
        ensures went { (all : List (List BareDef)) (versions : List ℕ) → RunsCode all versions image.now self.old → Resumed (texts_by all versions) image.now self.old self.new stop.now }
    {
        let (_, height) = self.frames.stack();
        self.go_on(image, stop.point, stop.after, height);
    }
}
