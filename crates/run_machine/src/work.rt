//! What an engine asks of a machine whose private work can be done elsewhere.
ghost use Rattle.std.specs.Prelude.{◌≡◌, ℕ, List, true, IfOk, IfSome};
ghost use Rattle.std.specs.Arc.{arc_value};
ghost use Rattle.c_tree.specs.BareDef.{BareDef};
ghost use Rattle.source_model.specs.Worlds.{Limits};
ghost use Rattle.source_model.specs.Runs.{SourceMove as Made};
ghost use Rattle.run_machine.specs.Machines.{IsSameRun};

use crate::Machine;
use c_types::Typed;
use std::alloc::{AllocError, Global};
use std::sync::Arc;

/// A machine that can leave the private work that follows a move due. That work can be done elsewhere, on a copy, by another
/// thread. The machine is the same runs whether the work is due or done. It may share its texts, too.
pub trait LeavesWork: Machine {
    /// The private work of one thread, on a copy.
    type Work: Send + Drop;

    /// Whether some work is that of a thread in a run of texts.
    ghost works_for: { List (List BareDef) → Self.Work → Type 0 };

    /// From now on moves leave the private work that follows them due.
    fn leave_work(&mut self)
        ensures same { IsSameRun (Self.shown self.old) (Self.shown self.new) }
        ensures lasts { (n : ℕ) → Self.lasts n self.old → Self.lasts n self.new }
        ensures spent { (n : ℕ) → Self.spent n self.old → Self.spent n self.new };

    /// Whether no private work is due. Where none is, moves leave none from now on. No work is done.
    fn try_settle(&mut self) -> bool
        ensures asks { result ≡ true → Self.asks self.new }
        ensures same { IsSameRun (Self.shown self.old) (Self.shown self.new) }
        ensures lasts { (n : ℕ) → Self.lasts n self.old → Self.lasts n self.new }
        ensures spent { (n : ℕ) → Self.spent n self.old → Self.spent n self.new };

    /// Does all private work that is due. From now on moves leave none.
    fn settle(&mut self)
        ensures asks { Self.asks self.new }
        ensures same { IsSameRun (Self.shown self.old) (Self.shown self.new) }
        ensures lasts { (n : ℕ) → Self.lasts n self.old → Self.lasts n self.new }
        ensures spent { (n : ℕ) → Self.spent n self.old → Self.spent n self.new };

    /// Room for the work of any thread. None is due in it.
    fn work(&self, alloc: Global) -> Result<Self::Work, AllocError>
        ensures works { IfOk result (λ w. (texts : List (List BareDef)) (limits : Limits) (moves : List Made)
            → (Self.shown self.now).is_run texts limits moves → works_for texts w) };

    /// Copies the private work that is due in a slot, if some is.
    fn hand_out(&self, slot: u8, work: &mut Self::Work)
        ensures works { (texts : List (List BareDef)) → works_for texts work.old → works_for texts work.new };

    /// Does the work on the copy.
    fn advance(work: &mut Self::Work)
        ensures works { (texts : List (List BareDef)) → works_for texts work.old → works_for texts work.new };

    /// Does the private work that is due in a slot, if some is: by what was done on the copy, where the copy is of what is due,
    /// else here. The copy is of a run of the same texts.
    fn take_back(&mut self, slot: u8, work: &Self::Work)
        requires { (texts : List (List BareDef)) × (limits : Limits) × (moves : List Made)
            × (Self.shown self.old).is_run texts limits moves × works_for texts work.now }
        ensures same { IsSameRun (Self.shown self.old) (Self.shown self.new) }
        ensures asked { Self.asks self.old → Self.asks self.new }
        ensures lasts { (n : ℕ) → Self.lasts n self.old → Self.lasts n self.new }
        ensures spent { (n : ℕ) → Self.spent n self.old → Self.spent n self.new };

    /// The texts of the run, for one who goes on with them elsewhere; none where they can't be shared.
    fn texts(&self) -> Option<Arc<Vec<Typed>, Global>>
        ensures { IfSome result (λ texts. (arc_value texts).items ≡ (Self.shown self.now).trees) };
}
