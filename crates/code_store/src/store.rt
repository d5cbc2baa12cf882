//! The store.
ghost use Rattle.std.specs.Prelude.{◌≡◌, ℕ, ◌+◌, ◌<◌, ◌≤◌, ◌↔◌, ◌⊎◌, not, false, List, [], ◌∷◌, ◌++◌, map, take, Contains, IsErrOf, IfOk, OnOk, OnErr};
ghost use Rattle.name_sets.specs.Texts.{IsTable};
ghost use Rattle.name_sets.specs.IdSet.{Holds};
ghost use Rattle.skeletons.specs.Meaning.{meant};
ghost use Rattle.c_semantics.specs.Skeletons.{check_ins};
ghost use Rattle.c_semantics.specs.Store.{Body, all_check_ins, all_tokens};
ghost use Rattle.effect_flow.specs.Flows.{IsFlowOf};
ghost use Rattle.effect_flow.specs.Parts.{check_ins_among};
ghost use Rattle.code_store.specs.Limits.{most_check_ins, most_function_tokens, are_too_many};
ghost use Rattle.code_store.specs.Stored.{meant_body, IsNewTo, IsStoreOf, AddsStored, AddsAllStored};
ghost use Rattle.code_store.specs.Uses.{ids_used_by};

use crate::StoredBody;
use crate::body::{add_uses, check_ins_among, counts_of};
use effect_flow::Flow;
use name_sets::{NameId, NameSet};
use std::alloc::{AllocError, Global};
use std::marker::Model;

/// The number of check-ins that a store has room for.
pub const MOST_CHECK_INS: usize = 63_000;

/// The number of tokens of functions that a store has room for.
pub const MOST_FUNCTION_TOKENS: usize = 131_072;

/// Why a body was not added.
#[derive(Clone, Copy, Debug, PartialEq, Eq)]
pub enum StoreFault {
    /// More than 63,000 check-ins or 131,072 tokens of functions.
    Full,
    /// There was no memory for it.
    Memory,
}

/// The bodies of all versions so far. Contracts see the list of them.
#[derive(Drop)]
pub struct Store {
    bodies: Vec<StoredBody>,
    /// How many check-ins they have.
    check_ins: usize,
    /// How many tokens they have.
    tokens: usize,
}

impl Model for Store {
    ghost use Rattle.std.specs.Prelude.{List};
    ghost use Rattle.code_store.specs.declared.body.StoredBody.{StoredBody};
    ghost use Rattle.code_store.specs.Stored.{HasCounts};

    ghost Value = { List StoredBody };

    ghost view = { λ s. s.bodies.items };

    ghost invariant = { λ s. HasCounts s.bodies.items s.check_ins s.tokens };
}

impl Store {
    /// The store of no bodies. It takes no memory yet.
    pub fn new(alloc: Global) -> Store
        ensures none { result ≡ [] }
        ensures store { (names : List (List ℕ)) → IsTable names → IsStoreOf names [] result }
    {
        Store {
            bodies: Vec::new(alloc),
            check_ins: 0,
            tokens: 0,
        }
    }

    /// Adds a body, after those that are there. Its function has no body of its generation yet. `Full` comes exactly where
    /// there would be more than 63,000 check-ins or 131,072 tokens. A fault drops the body and changes nothing.
    pub fn add(&mut self, body: StoredBody) -> Result<(), StoreFault>
        requires { IsNewTo self.old body.function body.generation }
        ensures body { OnOk result (self.new ≡ self.old ++ body ∷ []) }
        ensures store { OnOk result (AddsStored self.old body self.new) }
        ensures full { (names : List (List ℕ)) → IsErrOf result StoreFault.Full
            ↔ ((most_check_ins < all_check_ins (map (meant_body names) self.old) + check_ins (meant names body.skeleton))
            ⊎ (most_function_tokens < all_tokens (map (meant_body names) self.old) + body.tokens)) }
        ensures fault { OnErr result (self.new ≡ self.old) }
    {
        let check_ins = check_ins_among(&body.skeleton.points);
        let tokens = body.tokens as usize;
        if check_ins > MOST_CHECK_INS - self.check_ins
            || tokens > MOST_FUNCTION_TOKENS - self.tokens
        {
            drop(body);
            return Err(StoreFault::Full);
        }
        if let Err(refused) = self.bodies.push(body) {
            drop(refused);
            return Err(StoreFault::Memory);
        }
        self.check_ins += check_ins;
        self.tokens += tokens;
        Ok(())
    }

    /// Adds bodies, for which there is room, in their order after those that are there. Where there is no memory for all of
    /// them, they are dropped and nothing changes.
    pub fn add_all(&mut self, bodies: Vec<StoredBody>) -> Result<(), AllocError>
        requires { (names : List (List ℕ)) → are_too_many
            (map (meant_body names) self.old ++ map (meant_body names) bodies.items) ≡ false }
        ensures bodies { OnOk result (self.new ≡ self.old ++ bodies.items) }
        ensures store { OnOk result (AddsAllStored self.old bodies.items self.new) }
        ensures fault { OnErr result (self.new ≡ self.old) }
    {
        let mut more = bodies;
        let counts = counts_of(&more);
        self.bodies.append(&mut more)?;
        self.check_ins += counts.check_ins;
        self.tokens += counts.tokens;
        Ok(())
    }

    /// Takes out each body after the first `count`.
    pub fn truncate(&mut self, count: usize)
        ensures { self.new ≡ take count self.old }
    {
        self.bodies.truncate(count);
        let counts = counts_of(&self.bodies);
        self.check_ins = counts.check_ins;
        self.tokens = counts.tokens;
    }

    /// Whether there is room for some bodies beside those that are there, within both limits.
    pub fn has_room(&self, bodies: &[StoredBody]) -> bool
        ensures { (names : List (List ℕ)) → result
            ≡ not (are_too_many (map (meant_body names) self.now ++ map (meant_body names) bodies.now)) }
    {
        let mut check_ins = self.check_ins;
        let mut tokens = self.tokens;
        for body in bodies {
            let more = check_ins_among(&body.skeleton.points);
            let more_tokens = body.tokens as usize;
            if more > MOST_CHECK_INS - check_ins || more_tokens > MOST_FUNCTION_TOKENS - tokens {
                return false;
            }
            check_ins += more;
            tokens += more_tokens;
        }
        true
    }

    /// The bodies, in the order in which they were added.
    pub fn bodies(&self) -> &[StoredBody]
        ensures bodies { result.now ≡ self.now }
        ensures check_ins { (names : List (List ℕ))
            → all_check_ins (map (meant_body names) self.now) ≤ most_check_ins }
        ensures tokens { (names : List (List ℕ))
            → all_tokens (map (meant_body names) self.now) ≤ most_function_tokens }
    {
        self.bodies.as_slice()
    }

    /// The names that the bodies of a function use directly.
    pub fn direct(&self, name: NameId) -> NameSet
        ensures { (id : ℕ) → Holds result id ↔ Contains (ids_used_by name self.now) id }
    {
        let mut uses = NameSet::empty();
        for body in &self.bodies {
            if body.function.index() == name.index() {
                add_uses(&mut uses, &body.skeleton.points);
            }
        }
        uses
    }

    /// The flow of all bodies, in their order. It has as few check-ins as they have.
    pub fn flow(&self, alloc: Global) -> Result<Flow, AllocError>
        ensures flow { IfOk result (λ flow. (names : List (List ℕ)) (bodies : List Body)
            → IsStoreOf names bodies self.now
            → IsFlowOf names bodies flow) }
        ensures check_ins { IfOk result (λ flow. check_ins_among flow.points ≤ most_check_ins) }
    {
        let mut flow = Flow::new(alloc);
        for body in &self.bodies {
            flow.add(body.function, body.generation, &body.skeleton)?;
        }
        Ok(flow)
    }
}
