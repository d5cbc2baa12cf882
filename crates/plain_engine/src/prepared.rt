//! Offers that are prepared apart from the engine: what preparing one needs, and the decision on what was prepared.
ghost use Rattle.std.specs.Prelude.{◌≡◌, ◌≢◌, ◌≤◌, ◌<◌, ℕ, true, None, Ok, Err, IfNone, IfOk, IfSome, OnErr};
ghost use Rattle.std.specs.Arc.{arc_value};
ghost use Rattle.run_types.specs.declared.run.Event.TheVariants.{Decide};
ghost use Rattle.source_model.specs.Guards.{Guard, Setup, offer_at};
ghost use Rattle.dsu_runs.specs.Engines.{MakesAt};
ghost use Rattle.dsu_runs.specs.UndefinedNames.{UsesUndefined};
ghost use Rattle.plain_engine.specs.Plain.{IsAt, state_shown};
ghost use Rattle.plain_engine.specs.Prepared.{CanBePrepared, IsPreparationIn, IsPreparedFor};

use crate::PlainEngine;
use crate::calls::made;
use c_types::Typed;
use dsu_io::Sink;
use dsu_runs::{Made, Undecided};
use offer_decision::{Offered, Prepared};
use offer_preparations::Preparation;
use run_machine::Machine;
use std::alloc::Global;
use std::sync::Arc;

impl<M: Machine, S: Sink> PlainEngine<M, S> {
    /// What preparing an offer needs: the versions so far, the offer's text, and the rows over the bodies of these versions if
    /// they were computed before. There is nothing where there is no such offer. Preparing it changes no engine, so it may go on
    /// while the threads do.
    pub fn offered(&self, k: u8) -> Option<Offered<'_>>
        ensures offered { (setup : Setup) (g : Guard) → IsAt M.shown setup g self.now.state self.now.printed self.now.written
            → IfSome result (CanBePrepared (state_shown M.shown self.now.state) k) }
        ensures none { IfNone result ((setup : Setup) (g : Guard)
            → IsAt M.shown setup g self.now.state self.now.printed self.now.written → 0 < k → offer_at setup k ≡ None) }
    {
        self.state.offered(k)
    }

    /// Decides the open offer, as [`decide`](PlainEngine::decide) does, on what was prepared for it. There is no answer, and
    /// nothing changed, where other versions are there than it was prepared for: it has to be prepared again. Only an install
    /// takes memory.
    pub fn decide_prepared(&mut self, k: u8, prepared: Prepared) -> Result<Option<Made>, Undecided>
        ensures made { (setup : Setup) (g : Guard) → IsAt M.shown setup g self.old.state self.old.printed self.old.written
            → IsPreparedFor (state_shown M.shown self.old.state) k prepared → IfOk result (λ found. IfSome found
            (MakesAt (λ x. IsAt M.shown setup x self.new.state self.new.printed self.new.written) setup (Decide k) g
            (S.told self.old.sink) (S.told self.new.sink))) }
        ensures stale { result ≡ Ok None → (prepared.versions ≢ self.old.state.installed.count) × (self.new ≡ self.old) }
        ensures stays { OnErr result ((setup : Setup) (g : Guard) → IsAt M.shown setup g self.old.state self.old.printed self.old.written
            → IsPreparedFor (state_shown M.shown self.old.state) k prepared
            → IsAt M.shown setup g self.new.state self.new.printed self.new.written) }
        ensures silent { OnErr result (S.told self.new.sink ≡ S.told self.old.sink) }
        ensures asked { M.asks self.old.state.run → M.asks self.new.state.run }
        ensures later { S.faults self.old.sink ≤ S.faults self.new.sink }
        ensures written { IfOk result (λ found. IfSome found (λ made. made ≢ Made.SinkFailed)) }
        ensures misused { result ≡ Err Undecided.Misused → (setup : Setup) (g : Guard)
            → IsAt M.shown setup g self.old.state self.old.printed self.old.written → g.world.misused ≡ true }
        ensures defined { result ≢ Err Undecided.UndefinedName }
        ensures lasts { (n : ℕ) → M.lasts n self.old.state.run → M.lasts n self.new.state.run }
    {
        match self.state.decide_prepared(k, prepared) {
            Ok(None) => Ok(None),
            Ok(Some(done)) => Ok(Some(made(done))),
            Err(why) => Err(why),
        }
    }

    /// Decides the open offer, as [`decide`](PlainEngine::decide) does, with a preparation that was made elsewhere. Where that doesn't
    /// fit the versions that there are, the offer is prepared here.
    pub(crate) fn decide_with(&mut self, k: u8, preparation: Preparation) -> Result<Made, Undecided>
        ensures made { (setup : Setup) (g : Guard) → IsPreparationIn setup preparation
            → IsAt M.shown setup g self.old.state self.old.printed self.old.written → IfOk result
            (MakesAt (λ x. IsAt M.shown setup x self.new.state self.new.printed self.new.written) setup (Decide k) g
            (S.told self.old.sink) (S.told self.new.sink)) }
        ensures stays { OnErr result ((setup : Setup) (g : Guard) → IsPreparationIn setup preparation
            → IsAt M.shown setup g self.old.state self.old.printed self.old.written
            → IsAt M.shown setup g self.new.state self.new.printed self.new.written) }
        ensures silent { OnErr result (S.told self.new.sink ≡ S.told self.old.sink) }
        ensures later { S.faults self.old.sink ≤ S.faults self.new.sink }
        ensures written { result ≢ Ok Made.SinkFailed }
        ensures misused { result ≡ Err Undecided.Misused → (setup : Setup) (g : Guard)
            → IsAt M.shown setup g self.old.state self.old.printed self.old.written → g.world.misused ≡ true }
        ensures undefined { result ≡ Err Undecided.UndefinedName → (setup : Setup) (g : Guard)
            → IsAt M.shown setup g self.old.state self.old.printed self.old.written → UsesUndefined setup k }
    {
        match self.state.decide_with(k, preparation) {
            Ok(done) => Ok(made(done)),
            Err(why) => Err(why),
        }
    }

    /// What the decision on an offer needs to be prepared elsewhere: copies of the versions so far, and the run's texts, which are
    /// shared. None where memory runs out.
    pub(crate) fn preparation_over(
        &self,
        alloc: Global,
        k: u8,
        texts: Arc<Vec<Typed>, Global>,
    ) -> Option<Preparation>
        ensures { (arc_value texts).items ≡ (M.shown self.now.state.run).trees
            → IfSome result (λ p. (setup : Setup) (g : Guard)
            → IsAt M.shown setup g self.now.state self.now.printed self.now.written → IsPreparationIn setup p) }
    {
        match Preparation::of(alloc, k, self.state.last, texts, &self.state.installed) {
            Ok(preparation) => Some(preparation),
            Err(_) => None,
        }
    }
}
