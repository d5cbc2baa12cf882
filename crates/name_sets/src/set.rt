//! Sets of ids.
ghost use Rattle.std.specs.Prelude.{◌≡◌, ◌≢◌, ℕ, ◌<◌, ◌↔◌, ◌⊎◌, length, IsTrue};
ghost use Rattle.std.specs.Bool.{OnFalse};
ghost use Rattle.name_sets.specs.IdSet.{Holds, HasIds, IsCommon};
ghost use Rattle.name_sets.specs.Least.{TellsLeast};

use crate::{NameId, Names, least, words};
use std::hash::{Hash, Hasher};
use std::marker::Model;

/// A set of ids, as a row of 2,048 bits. Contracts see it by its members, as `Holds set id`, and sets
/// with the same members are equal.
#[derive(Clone, Copy)]
pub struct NameSet {
    words: [u64; 32],
}

impl Model for NameSet {
    ghost use Rattle.std.specs.Prelude.{ℕ};
    ghost use Rattle.name_sets.specs.Row.{joined, words_of, IsRow};
    ghost use Rattle.name_sets.specs.RowBack.{row_back};

    ghost Value = { ℕ };

    ghost view = { λ set. joined set.words };

    ghost invariant = { λ set. IsRow set.words };

    ghost inverse = { λ set. record { words = words_of 32 set } };

    ghost inverse_ok = { λ a row i. record { words = row_back a.words row i } };
}

impl NameSet {
    /// The set with no members.
    pub fn empty() -> NameSet
        ensures { (id : ℕ) → ¬ Holds result id }
    {
        NameSet { words: [0; 32] }
    }

    /// Puts an id in.
    pub fn add(&mut self, id: NameId)
        ensures members { (other : ℕ) → Holds self.new other
            ↔ (Holds self.old other ⊎ (other ≡ id)) }
        ensures ids { HasIds self.new }
    {
        let index = id.index();
        self.words[index / 64] |= 1 << (index % 64);
    }

    /// Whether an id is in.
    pub fn holds(&self, id: NameId) -> bool
        ensures answer { IsTrue result ↔ Holds self.now id }
        ensures ids { HasIds self.now }
    {
        let index = id.index();
        (self.words[index / 64] >> (index % 64)) & 1 == 1
    }

    /// Puts in the members of another set, and answers whether the set grew.
    pub fn union_with(&mut self, other: &NameSet) -> bool
        ensures members { (id : ℕ) → Holds self.new id
            ↔ (Holds self.old id ⊎ Holds other.now id) }
        ensures grew { IsTrue result ↔ (self.new ≢ self.old) }
        ensures same { OnFalse result (self.new ≡ self.old) }
        ensures ids { HasIds self.new }
    {
        words::unite(&mut self.words, &other.words)
    }

    /// `union_with`, one word at a time.
    pub fn union_plain(&mut self, other: &NameSet) -> bool
        ensures members { (id : ℕ) → Holds self.new id
            ↔ (Holds self.old id ⊎ Holds other.now id) }
        ensures grew { IsTrue result ↔ (self.new ≢ self.old) }
        ensures same { OnFalse result (self.new ≡ self.old) }
        ensures ids { HasIds self.new }
    {
        words::unite_plain(&mut self.words, &other.words)
    }

    /// Whether the sets have a member in common.
    pub fn meets(&self, other: &NameSet) -> bool
        ensures { IsTrue result ↔ ((id : ℕ) × IsCommon self.now other.now id) }
    {
        words::meet(&self.words, &other.words)
    }

    /// `meets`, one word at a time.
    pub fn meets_plain(&self, other: &NameSet) -> bool
        ensures { IsTrue result ↔ ((id : ℕ) × IsCommon self.now other.now id) }
    {
        words::meet_plain(&self.words, &other.words)
    }

    /// The common member whose text comes first in the order of bytes, or `None` if there is no common
    /// member. Each common member has a text in `names`.
    pub fn least_common(&self, other: &NameSet, names: &Names) -> Option<NameId>
        requires { (id : ℕ) → IsCommon self.now other.now id → id < length names.now }
        ensures { TellsLeast names.now (IsCommon self.now other.now) result }
    {
        least::least_of_rows(names, &self.words, &other.words)
    }
}

impl PartialEq for NameSet {
    ghost use Rattle.std.specs.Prelude.{nat_eq};
    ghost use Rattle.std.specs.Cmp.{partial_equiv_from_equiv};
    ghost use Rattle.std.proofs.lemmas.Cmp.{nat_eq_equiv};

    ghost eq = { nat_eq };

    ghost laws = { partial_equiv_from_equiv nat_eq_equiv };

    fn eq(&self, other: &NameSet) -> bool {
        self.words == other.words
    }
}

impl Eq for NameSet {
    ghost use Rattle.std.proofs.lemmas.Cmp.{nat_eq_equiv};

    ghost laws = { nat_eq_equiv };
}

impl Hash for NameSet {
    ghost use Rattle.std.proofs.Common.{rules};
    ghost use Rattle.std.specs.Cmp.Rules.{hashing};
    ghost use Rattle.std.specs.Hash as fed;
    ghost use Rattle.name_sets.specs.Row.{words_of};

    ghost hash_input = { λ set. fed.slice fed.u64 (words_of 32 set) };

    ghost respects_eq = { Prim.search (hashing, rules) };

    fn hash<H: Hasher>(&self, state: &mut H) {
        self.words.hash(state);
    }
}
