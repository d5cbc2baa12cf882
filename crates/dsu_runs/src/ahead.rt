ghost use Rattle.std.specs.Prelude.{◌≡◌, ◌≢◌, ◌≤◌, true, IfOk, IfSome, Ok, Err, OnErr};
ghost use Rattle.run_types.specs.declared.run.Event.TheVariants.{Decide};
ghost use Rattle.source_model.specs.Guards.{Guard, Setup};
ghost use Rattle.dsu_runs.specs.Engines.{MakesAt};
ghost use Rattle.dsu_runs.specs.UndefinedNames.{UsesUndefined};

use crate::{Engine, Made, Undecided};
use std::alloc::{AllocError, Global};

/// An engine whose threads' private work, and whose preparation of an offer, can be done elsewhere: on copies, by other threads.
/// It stands for the same run whether the private work of its threads is due or done.
pub trait Ahead: Engine {
    /// The private work of one thread, on a copy.
    type Work: Send + Drop;

    /// The preparation of an offer's decision, on what it needs of the engine.
    type Preparation: Send + Drop;

    /// Whether some work is that of a thread in a run of a setup.
    ghost works_for: { Setup → Self.Work → Type 0 };

    /// Whether a preparation is one in a run of a setup.
    ghost prepares_for: { Setup → Self.Preparation → Type 0 };

    /// Room for the work of any thread. None is due in it.
    fn work(&self, alloc: Global) -> Result<Self::Work, AllocError>
        ensures works { IfOk result (λ w. (setup : Setup) (g : Guard) → Self.is_at setup g self.now → works_for setup w) };

    /// From now on moves leave the private work that follows them due.
    fn leave_work(&mut self)
        ensures stays { (setup : Setup) (g : Guard) → Self.is_at setup g self.old → Self.is_at setup g self.new }
        ensures silent { Self.told self.new ≡ Self.told self.old }
        ensures later { Self.faults self.new ≡ Self.faults self.old };

    /// Copies the private work that is due in a slot, if some is.
    fn hand_out(&self, slot: u8, work: &mut Self::Work)
        ensures works { (setup : Setup) → works_for setup work.old → works_for setup work.new };

    /// Does the work on the copy.
    fn advance(work: &mut Self::Work)
        ensures works { (setup : Setup) → works_for setup work.old → works_for setup work.new };

    /// Does the private work that is due in a slot, if some is: by what was done on the copy, where the copy is of what is due,
    /// else here. The copy is of a run of the same texts.
    fn take_back(&mut self, slot: u8, work: &Self::Work)
        requires { (setup : Setup) × (g : Guard) × Self.is_at setup g self.old × works_for setup work.now }
        ensures stays { (setup : Setup) (g : Guard) → works_for setup work.now → Self.is_at setup g self.old → Self.is_at setup g self.new }
        ensures silent { Self.told self.new ≡ Self.told self.old }
        ensures later { Self.faults self.new ≡ Self.faults self.old };

    /// Whether no private work is due. Where none is, moves leave none from now on. No work is done.
    fn try_settle(&mut self) -> bool
        ensures asks { result ≡ true → Self.asks self.new }
        ensures stays { (setup : Setup) (g : Guard) → Self.is_at setup g self.old → Self.is_at setup g self.new }
        ensures silent { Self.told self.new ≡ Self.told self.old }
        ensures later { Self.faults self.new ≡ Self.faults self.old };

    /// Does all private work that is due. From now on moves leave none.
    fn settle(&mut self)
        ensures asks { Self.asks self.new }
        ensures stays { (setup : Setup) (g : Guard) → Self.is_at setup g self.old → Self.is_at setup g self.new }
        ensures silent { Self.told self.new ≡ Self.told self.old }
        ensures later { Self.faults self.new ≡ Self.faults self.old };

    /// What the decision on an open offer needs to be prepared elsewhere. None: it is decided without.
    fn preparation(&self, alloc: Global, k: u8) -> Option<Self::Preparation>
        ensures prepares { IfSome result (λ p. (setup : Setup) (g : Guard) → Self.is_at setup g self.now → prepares_for setup p) };

    /// Prepares the decision. It notes in the preparation where it fails.
    fn prepare(preparation: &mut Self::Preparation)
        ensures prepares { (setup : Setup) → prepares_for setup preparation.old → prepares_for setup preparation.new };

    /// Decides the open offer with its preparation. Where the preparation doesn't fit what is open, the decision is made here.
    /// Where it isn't decided nothing changed, and the offer is still open.
    fn decide_prepared(&mut self, k: u8, preparation: Self::Preparation) -> Result<Made, Undecided>
        ensures made { (setup : Setup) (g : Guard) → prepares_for setup preparation → Self.is_at setup g self.old → IfOk result
            (MakesAt (λ x. Self.is_at setup x self.new) setup (Decide k) g (Self.told self.old) (Self.told self.new)) }
        ensures stays { OnErr result ((setup : Setup) (g : Guard) → prepares_for setup preparation → Self.is_at setup g self.old
            → Self.is_at setup g self.new) }
        ensures silent { OnErr result (Self.told self.new ≡ Self.told self.old) }
        ensures later { Self.faults self.old ≤ Self.faults self.new }
        ensures written { result ≢ Ok Made.SinkFailed }
        ensures misused { result ≡ Err Undecided.Misused → (setup : Setup) (g : Guard) → prepares_for setup preparation
            → Self.is_at setup g self.old → g.world.misused ≡ true }
        ensures undefined { result ≡ Err Undecided.UndefinedName → (setup : Setup) (g : Guard) → prepares_for setup preparation
            → Self.is_at setup g self.old → UsesUndefined setup k };
}
