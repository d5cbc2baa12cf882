//! Private work that is left for later, and done: neither is seen of a machine.
ghost use Rattle.std.specs.Prelude.{◌≡◌, IsTrue, List, false, ℕ};
ghost use Rattle.c_tree.specs.BareDef.{BareDef};
ghost use Rattle.code_image.specs.declared.image.CodeImage.{CodeImage as Image};
ghost use Rattle.code_machine.specs.declared.running.Next.TheVariants.{Continues as ContinuesNext};
ghost use Rattle.code_machine.specs.Keeping.{SameRun};
ghost use Rattle.code_machine.specs.Kept.{FitsImage, IsKeptRun, IsSettledRun};
ghost use Rattle.code_machine.specs.Queries.{IsSettled, IsSettledAt};
ghost use Rattle.code_machine.specs.Seen.{slot_of};
ghost use Rattle.code_machine.specs.Versions.{RunsCode};
ghost use Rattle.code_machine.specs.Working.{SameMachine};

use crate::machine::CodeMachine;
use crate::running::{Next, Running};
use crate::state::RunState;
use code_image::CodeImage;

impl Running {
    /// Whether the thread has private work to do.
    pub(crate) fn is_due(&self) -> bool
        ensures { result ≡ false → self.now.next ≡ ContinuesNext → ⊥ }
    {
        matches!(self.next, Next::Continues)
    }

    /// Does the private work that is due, if some is. From now on it leaves none.
    fn settle(&mut self, image: &CodeImage)
        requires { FitsImage image.now self.old }
        ensures fits { FitsImage image.now self.new }
        ensures runs { (all : List (List BareDef)) (versions : List ℕ) → RunsCode all versions image.now self.old
            → RunsCode all versions image.now self.new }
        ensures seen { slot_of image.now self.new ≡ slot_of image.now self.old }
        ensures depth { self.new.depth ≡ self.old.depth }
        ensures leaves { self.new.leaves_work ≡ false }
    {
        self.run_on(image);
        self.leaves_work = false;
    }
}

impl RunState {
    /// From now on the private work that follows a move is left for later.
    fn leave_work(&mut self)
        ensures { (image : Image) → IsKeptRun image self.old → SameRun image self.old self.new }
    {
        self.leaves_work = true;
        for slot in 0..self.slots.len() {
            self.slots[slot].leaves_work = true;
        }
    }

    /// Does all private work that is due. From now on moves leave none.
    fn settle(&mut self, image: &CodeImage)
        requires { IsKeptRun image.now self.old }
        ensures same { SameRun image.now self.old self.new }
        ensures leaves { self.new.leaves_work ≡ false }
    {
        for slot in 0..self.slots.len() {
            self.slots[slot].settle(image);
        }
        self.leaves_work = false;
    }

    /// Whether no thread has private work to do.
    fn is_settled(&self) -> bool
        ensures { IsTrue result → IsSettledRun self.now }
    {
        for slot in 0..self.slots.len() {
            if self.slots[slot].is_due() {
                return false;
            }
        }
        true
    }
}

impl CodeMachine {
    /// From now on the private work that follows a move is left for later.
    pub fn leave_work(&mut self)
        ensures same { SameMachine self.old self.new }
    {
        if self.run.leaves_work {
            return;
        }
        self.run.leave_work();
    }

    /// From now on it is done with the move. So is what is due.
    pub fn do_work(&mut self)
        ensures same { SameMachine self.old self.new }
        ensures settled { IsSettled self.new }
    {
        self.settle();
    }

    /// Whether moves leave no private work; no thread has some to do then.
    pub fn is_settled(&self) -> bool
        ensures { IsTrue result → IsSettled self.now }
    {
        !self.run.leaves_work
    }

    /// Does all private work that is due. From now on moves leave none.
    pub fn settle(&mut self)
        ensures same { SameMachine self.old self.new }
        ensures settled { IsSettled self.new }
    {
        if !self.run.leaves_work {
            return;
        }
        self.run.settle(&self.image);
    }

    /// Whether no thread has private work to do. If so, moves leave none from now on; if not, nothing is changed.
    pub fn try_settle(&mut self) -> bool
        ensures same { SameMachine self.old self.new }
        ensures settled { IsTrue result → IsSettled self.new }
    {
        if !self.run.is_settled() {
            return false;
        }
        self.settle();
        true
    }

    /// Does the private work of the thread in a slot, if some is due.
    pub fn run_on(&mut self, slot: u8)
        ensures same { SameMachine self.old self.new }
        ensures here { IsSettledAt self.new slot }
        ensures settled { IsSettled self.old → IsSettled self.new }
    {
        self.run.run_on(&self.image, slot);
    }
}
