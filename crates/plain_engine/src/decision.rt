//! The decision on an offer.
ghost use Rattle.std.specs.Prelude.{◌≡◌, ◌≢◌, ◌<◌, ◌++◌, ℕ, false, true, List, None, Some, map, slice_get, Err, Ok, IfErr, IfOk, IfNone, IfSome, OnErr};
ghost use Rattle.c_tree.specs.BareExpr.{Bytes};
ghost use Rattle.code_store.specs.Limits.{are_too_many};
ghost use Rattle.code_store.specs.Stored.{meant_body};
ghost use Rattle.run_types.specs.declared.run.Event.TheVariants.{Decide};
ghost use Rattle.source_model.specs.Guards.{Guard, Setup, has_ended, is_open, offer_at};
ghost use Rattle.offer_decision.specs.declared.answer.Decision.TheVariants.{Admitted};
ghost use Rattle.plain_engine.specs.Plain.{IsStateAt, state_shown};
ghost use Rattle.dsu_runs.specs.UndefinedNames.{UsesUndefined};
ghost use Rattle.plain_engine.specs.Prepared.{CanBePrepared, IsPreparationIn, IsPreparedAt, IsPreparedFor};
ghost use Rattle.plain_engine.specs.Steps.{ComesTo, IsDecided, IsFollowed, MayWithhold, Stayed};

use crate::seen::{seats_seen, with_pins};
use crate::state::State;
use code_store::StoredBody;
use dsu_runs::Undecided;
use offer_decision::{Decision, Found, Offered, Prepared, decide_prepared, prepare};
use offer_preparations::Preparation;
use patch_build::{MOST_VERSIONS, Patch};
use run_machine::Machine;
use source_model::OfferAnswer;
use source_runner::Stepped;

impl<M: Machine> State<M> {
    /// Decides an offer, if it is open and the run goes on. Where it isn't decided nothing changed but that rows may be kept.
    pub(crate) fn decide(&mut self, k: u8) -> Result<bool, Undecided>
        ensures made { (setup : Setup) (g : Guard) → IsStateAt setup g (state_shown M.shown self.old)
            → IfOk result (ComesTo setup (Decide k) g (state_shown M.shown self.new)) }
        ensures stays { OnErr result ((setup : Setup) (g : Guard)
            → IsStateAt setup g (state_shown M.shown self.old) → IsStateAt setup g (state_shown M.shown self.new)) }
        ensures kept { (M.shown self.new.run).kept ≡ (M.shown self.old.run).kept }
        ensures asked { M.asks self.old.run → M.asks self.new.run }
        ensures lasts { (n : ℕ) → M.lasts n self.old.run → M.lasts n self.new.run }
        ensures misused { result ≡ Err Undecided.Misused → (setup : Setup) (g : Guard)
            → IsStateAt setup g (state_shown M.shown self.old) → g.world.misused ≡ true }
        ensures undefined { result ≡ Err Undecided.UndefinedName → (setup : Setup) (g : Guard)
            → IsStateAt setup g (state_shown M.shown self.old) → UsesUndefined setup k }
    {
        match self.may_decide(k) {
            Ok(true) => self.decide_open(k),
            Ok(false) => Ok(false),
            Err(why) => Err(why),
        }
    }

    /// Decides an offer on what was prepared for it, if it is open and the run goes on. There is no answer, and nothing changed,
    /// where it was prepared for other versions than there are.
    pub(crate) fn decide_prepared(
        &mut self,
        k: u8,
        prepared: Prepared,
    ) -> Result<Option<bool>, Undecided>
        ensures made { (setup : Setup) (g : Guard) → IsStateAt setup g (state_shown M.shown self.old)
            → IsPreparedFor (state_shown M.shown self.old) k prepared
            → IfOk result (λ found. IfSome found (ComesTo setup (Decide k) g (state_shown M.shown self.new))) }
        ensures stale { result ≡ Ok None → (prepared.versions ≢ self.old.installed.count) × (self.new ≡ self.old) }
        ensures stays { OnErr result ((setup : Setup) (g : Guard)
            → IsStateAt setup g (state_shown M.shown self.old) → IsPreparedFor (state_shown M.shown self.old) k prepared
            → IsStateAt setup g (state_shown M.shown self.new)) }
        ensures kept { (M.shown self.new.run).kept ≡ (M.shown self.old.run).kept }
        ensures asked { M.asks self.old.run → M.asks self.new.run }
        ensures lasts { (n : ℕ) → M.lasts n self.old.run → M.lasts n self.new.run }
        ensures misused { result ≡ Err Undecided.Misused → (setup : Setup) (g : Guard)
            → IsStateAt setup g (state_shown M.shown self.old) → g.world.misused ≡ true }
        ensures defined { result ≢ Err Undecided.UndefinedName }
    {
        match self.may_decide(k) {
            Ok(true) => self.decide_if_present(k, prepared),
            Ok(false) => Ok(Some(false)),
            Err(why) => Err(why),
        }
    }

    /// Decides an offer with a preparation of it, if it is open and the run goes on. Where the preparation doesn't fit the versions
    /// that there are, the offer is prepared here. Where it isn't decided nothing changed but that rows may be kept.
    pub(crate) fn decide_with(&mut self, k: u8, preparation: Preparation) -> Result<bool, Undecided>
        ensures made { (setup : Setup) (g : Guard) → IsPreparationIn setup preparation
            → IsStateAt setup g (state_shown M.shown self.old)
            → IfOk result (ComesTo setup (Decide k) g (state_shown M.shown self.new)) }
        ensures stays { OnErr result ((setup : Setup) (g : Guard) → IsPreparationIn setup preparation
            → IsStateAt setup g (state_shown M.shown self.old) → IsStateAt setup g (state_shown M.shown self.new)) }
        ensures kept { (M.shown self.new.run).kept ≡ (M.shown self.old.run).kept }
        ensures misused { result ≡ Err Undecided.Misused → (setup : Setup) (g : Guard)
            → IsStateAt setup g (state_shown M.shown self.old) → g.world.misused ≡ true }
        ensures undefined { result ≡ Err Undecided.UndefinedName → (setup : Setup) (g : Guard)
            → IsStateAt setup g (state_shown M.shown self.old) → UsesUndefined setup k }
    {
        match self.may_decide(k) {
            Ok(true) => self.decide_open_with(k, preparation),
            Ok(false) => Ok(false),
            Err(why) => Err(why),
        }
    }

    /// Whether an offer can be decided: it is open, and the run goes on.
    fn may_decide(&self, k: u8) -> Result<bool, Undecided>
        ensures open { IfOk result (λ may. may ≡ true → (setup : Setup) (g : Guard) → IsStateAt setup g (state_shown M.shown self.now)
            → (has_ended g ≡ false) × (g.world.misused ≡ false) × (is_open g k ≡ true)) }
        ensures some { IfOk result (λ may. may ≡ true → 0 < k) }
        ensures never { IfOk result (λ may. may ≡ false → (setup : Setup) (g : Guard)
            → IsStateAt setup g (state_shown M.shown self.now) → Stayed setup (Decide k) g (state_shown M.shown self.now)) }
        ensures misused { IfErr result (λ why. (why ≡ Undecided.Misused) × ((setup : Setup) (g : Guard)
            → IsStateAt setup g (state_shown M.shown self.now) → g.world.misused ≡ true)) }
    {
        // Offers are numbered from 1, and text 0 is the first one.
        if k == 0 {
            return Ok(false);
        }
        if !self.book.is_open(k) {
            return Ok(false);
        }
        if self.has_ended() {
            return Ok(false);
        }
        if self.run.misused() {
            return Err(Undecided::Misused);
        }
        Ok(true)
    }

    /// Decides the open offer on what was prepared for it, in a run in which threads still move, if it was prepared for the
    /// versions that there are.
    fn decide_if_present(&mut self, k: u8, prepared: Prepared) -> Result<Option<bool>, Undecided>
        requires { 0 < k }
        ensures made { (setup : Setup) (g : Guard) → IsStateAt setup g (state_shown M.shown self.old) → has_ended g ≡ false
            → g.world.misused ≡ false → is_open g k ≡ true → 0 < k → IsPreparedFor (state_shown M.shown self.old) k prepared
            → IfOk result (λ found. IfSome found (ComesTo setup (Decide k) g (state_shown M.shown self.new))) }
        ensures stale { result ≡ Ok None → (prepared.versions ≢ self.old.installed.count) × (self.new ≡ self.old) }
        ensures stays { OnErr result ((setup : Setup) (g : Guard)
            → IsStateAt setup g (state_shown M.shown self.old) → IsPreparedFor (state_shown M.shown self.old) k prepared
            → IsStateAt setup g (state_shown M.shown self.new)) }
        ensures kept { (M.shown self.new.run).kept ≡ (M.shown self.old.run).kept }
        ensures asked { M.asks self.old.run → M.asks self.new.run }
        ensures lasts { (n : ℕ) → M.lasts n self.old.run → M.lasts n self.new.run }
        ensures memory { IfErr result (λ why. why ≡ Undecided.Memory) }
    {
        if prepared.versions != self.installed.count() {
            return Ok(None);
        }
        match self.decide_on(k, prepared) {
            Ok(done) => Ok(Some(done)),
            Err(why) => Err(why),
        }
    }

    /// Decides the open offer in a run in which threads still move. Where it isn't decided nothing changed but that rows may be
    /// kept.
    fn decide_open(&mut self, k: u8) -> Result<bool, Undecided>
        requires { 0 < k }
        ensures made { (setup : Setup) (g : Guard) → IsStateAt setup g (state_shown M.shown self.old) → has_ended g ≡ false
            → g.world.misused ≡ false → is_open g k ≡ true → 0 < k
            → IfOk result (ComesTo setup (Decide k) g (state_shown M.shown self.new)) }
        ensures stays { OnErr result ((setup : Setup) (g : Guard)
            → IsStateAt setup g (state_shown M.shown self.old) → IsStateAt setup g (state_shown M.shown self.new)) }
        ensures kept { (M.shown self.new.run).kept ≡ (M.shown self.old.run).kept }
        ensures asked { M.asks self.old.run → M.asks self.new.run }
        ensures lasts { (n : ℕ) → M.lasts n self.old.run → M.lasts n self.new.run }
        ensures why { IfErr result (MayWithhold (state_shown M.shown self.old) k) }
    {
        let prepared = self.prepared(k)?;
        match prepared {
            None => Ok(false),
            Some(prepared) => self.decide_on(k, prepared),
        }
    }

    /// Decides the open offer with a preparation of it, in a run in which threads still move.
    fn decide_open_with(&mut self, k: u8, preparation: Preparation) -> Result<bool, Undecided>
        requires { 0 < k }
        ensures made { (setup : Setup) (g : Guard) → IsPreparationIn setup preparation
            → IsStateAt setup g (state_shown M.shown self.old) → has_ended g ≡ false
            → g.world.misused ≡ false → is_open g k ≡ true → 0 < k
            → IfOk result (ComesTo setup (Decide k) g (state_shown M.shown self.new)) }
        ensures stays { OnErr result ((setup : Setup) (g : Guard) → IsPreparationIn setup preparation
            → IsStateAt setup g (state_shown M.shown self.old) → IsStateAt setup g (state_shown M.shown self.new)) }
        ensures kept { (M.shown self.new.run).kept ≡ (M.shown self.old.run).kept }
        ensures why { IfErr result (MayWithhold (state_shown M.shown self.old) k) }
    {
        match preparation.fitting(k, self.last, &self.installed) {
            Some(prepared) => self.decide_on(k, prepared),
            None => self.decide_open(k),
        }
    }

    /// What preparing an offer needs; nothing where there is no such offer.
    pub(crate) fn offered(&self, k: u8) -> Option<Offered<'_>>
        ensures offered { (setup : Setup) (g : Guard) → IsStateAt setup g (state_shown M.shown self.now)
            → IfSome result (CanBePrepared (state_shown M.shown self.now) k) }
        ensures text { IfSome result (λ offered. slice_get (M.shown self.now.run).trees k ≡ Some offered.text.now) }
        ensures none { IfNone result ((setup : Setup) (g : Guard)
            → IsStateAt setup g (state_shown M.shown self.now) → 0 < k → offer_at setup k ≡ None) }
    {
        let Some(last) = self.run.text(self.last) else {
            return None;
        };
        let Some(text) = self.run.text(k as usize) else {
            return None;
        };
        Some(Offered {
            versions: self.installed.versions(last),
            text,
            rows: self.installed.rows(),
        })
    }

    /// Prepares an offer; nothing where there is no such offer.
    fn prepared(&self, k: u8) -> Result<Option<Prepared>, Undecided>
        ensures prepared { (setup : Setup) (g : Guard) → IsStateAt setup g (state_shown M.shown self.now)
            → IfOk result (λ found. IfSome found (IsPreparedAt (state_shown M.shown self.now) k)) }
        ensures none { IfOk result (λ found. IfNone found ((setup : Setup) (g : Guard)
            → IsStateAt setup g (state_shown M.shown self.now) → 0 < k → offer_at setup k ≡ None)) }
        ensures why { IfErr result (MayWithhold (state_shown M.shown self.now) k) }
    {
        let Some(offered) = self.offered(k) else {
            return Ok(None);
        };
        let prepared = prepare(self.alloc, offered)?;
        Ok(Some(prepared))
    }

    /// Decides the open offer on what was prepared for it and for the versions that there are, in a run in which threads still
    /// move. Where it isn't decided nothing changed but that rows may be kept.
    fn decide_on(&mut self, k: u8, prepared: Prepared) -> Result<bool, Undecided>
        requires { 0 < k }
        ensures made { (setup : Setup) (g : Guard) → IsStateAt setup g (state_shown M.shown self.old) → has_ended g ≡ false
            → g.world.misused ≡ false → is_open g k ≡ true → 0 < k
            → IsPreparedAt (state_shown M.shown self.old) k prepared
            → IfOk result (ComesTo setup (Decide k) g (state_shown M.shown self.new)) }
        ensures stays { OnErr result ((setup : Setup) (g : Guard)
            → IsStateAt setup g (state_shown M.shown self.old) → IsPreparedAt (state_shown M.shown self.old) k prepared
            → IsStateAt setup g (state_shown M.shown self.new)) }
        ensures kept { (M.shown self.new.run).kept ≡ (M.shown self.old.run).kept }
        ensures asked { M.asks self.old.run → M.asks self.new.run }
        ensures lasts { (n : ℕ) → M.lasts n self.old.run → M.lasts n self.new.run }
        ensures memory { IfErr result (λ why. why ≡ Undecided.Memory) }
    {
        self.keep_rows(&prepared);
        match self.decision(prepared) {
            Decision::NotPatch(cause) => {
                self.book.close(k, OfferAnswer::NotPatch(cause));
                Ok(true)
            }
            Decision::Refused(refusal) => {
                self.book.close(k, OfferAnswer::Refused(refusal));
                Ok(true)
            }
            Decision::Admitted(patch, pins) => self.install(k, patch, &pins),
        }
    }

    /// Keeps the rows that were prepared, as those of the versions that there are.
    fn keep_rows(&mut self, prepared: &Prepared)
        ensures stays { (setup : Setup) (g : Guard) (k : ℕ) → IsStateAt setup g (state_shown M.shown self.old)
            → IsPreparedAt (state_shown M.shown self.old) k prepared.now → IsStateAt setup g (state_shown M.shown self.new) }
        ensures prepared { (k : ℕ) → IsPreparedAt (state_shown M.shown self.old) k prepared.now
            → IsPreparedAt (state_shown M.shown self.new) k prepared.now }
        ensures kept { (M.shown self.new.run).kept ≡ (M.shown self.old.run).kept }
        ensures asked { M.asks self.old.run → M.asks self.new.run }
        ensures lasts { (n : ℕ) → M.lasts n self.old.run → M.lasts n self.new.run }
    {
        if let Found::Patch(_, rows) = &prepared.found {
            self.installed.keep_rows(rows);
        }
    }

    /// What is decided on an offer that was prepared for the versions that there are.
    fn decision(&self, prepared: Prepared) -> Decision
        ensures { (k : ℕ) → IsPreparedAt (state_shown M.shown self.now) k prepared
            → IsDecided (state_shown M.shown self.now) k result }
    {
        let names = self.installed.names();
        let seats = seats_seen(&self.run, names, self.installed.count(), &self.seats);
        decide_prepared(prepared, names, self.installed.store(), &seats)
    }

    /// Whether some bodies and one version more have room. A patch has.
    fn has_room(&self, bodies: &[StoredBody]) -> bool
        ensures few { result ≡ true → self.now.installed.count < 64 }
        ensures room { result ≡ true → (names : List Bytes) → are_too_many
            (map (meant_body names) self.now.installed.store ++ map (meant_body names) bodies.now) ≡ false }
        ensures full { result ≡ false → (setup : Setup) (g : Guard) → IsStateAt setup g (state_shown M.shown self.now)
            → self.now.installed.count < 64 → ¬ ((names : List Bytes) → are_too_many
            (map (meant_body names) self.now.installed.store ++ map (meant_body names) bodies.now) ≡ false) }
    {
        if self.installed.count() >= MOST_VERSIONS {
            return false;
        }
        self.installed.store().has_room(bodies)
    }

    /// Installs an admitted patch with these pins. Where memory runs out, nothing changed.
    fn install(&mut self, k: u8, patch: Patch, pins: &[bool; 16]) -> Result<bool, Undecided>
        requires { 0 < k }
        ensures made { (setup : Setup) (g : Guard) → IsStateAt setup g (state_shown M.shown self.old) → has_ended g ≡ false
            → g.world.misused ≡ false → is_open g k ≡ true → 0 < k
            → IsDecided (state_shown M.shown self.old) k (Admitted patch pins.now)
            → IfOk result (ComesTo setup (Decide k) g (state_shown M.shown self.new)) }
        ensures stays { OnErr result ((setup : Setup) (g : Guard)
            → IsStateAt setup g (state_shown M.shown self.old) → IsStateAt setup g (state_shown M.shown self.new)) }
        ensures kept { (M.shown self.new.run).kept ≡ (M.shown self.old.run).kept }
        ensures asked { M.asks self.old.run → M.asks self.new.run }
        ensures lasts { (n : ℕ) → M.lasts n self.old.run → M.lasts n self.new.run }
        ensures memory { IfErr result (λ why. why ≡ Undecided.Memory) }
    {
        // A decision admits no patch without room.
        if !self.has_room(&patch.bodies) {
            return Ok(false);
        }
        let transforms = patch.transforms;
        let replaced = self.installed.install(patch.names, patch.bodies)?;
        match self.run.install(k as usize, &transforms) {
            Ok(Stepped::Done) => {
                self.follow(k, pins);
                Ok(true)
            }
            Ok(Stepped::CannotMove) => {
                self.installed.take_back(replaced);
                Ok(false)
            }
            Err(_) => {
                self.installed.take_back(replaced);
                Err(Undecided::Memory)
            }
        }
    }

    /// What is kept beside the machine follows an install.
    fn follow(&mut self, k: u8, pins: &[bool; 16])
        ensures followed { (setup : Setup) (g after : Guard)
            → IsFollowed setup g k pins.now (state_shown M.shown self.old) after → IsStateAt setup after (state_shown M.shown self.new) }
        ensures kept { (M.shown self.new.run).kept ≡ (M.shown self.old.run).kept }
        ensures asked { M.asks self.old.run → M.asks self.new.run }
        ensures lasts { (n : ℕ) → M.lasts n self.old.run → M.lasts n self.new.run }
    {
        self.seats = with_pins(&self.seats, pins);
        self.last = k as usize;
        self.book
            .close(k, OfferAnswer::Installed(self.installed.count()));
    }
}
