//! Sets of slots.
ghost use Rattle.std.specs.Prelude.{◌≡◌, ◌==◌, ◌<◌, ℕ, MatchOption, false, if◌then◌else◌};
ghost use Rattle.slot_sets.specs.Members.{HasNoneFrom, IsFirstFrom, most_slots, is_in};

use std::marker::Model;

/// How many slots there can be.
pub const MOST_SLOTS: u8 = 32;

/// A set of slots below 32. Contracts see it by its members.
#[derive(Clone, Copy)]
pub struct SlotSet {
    /// Bit n is 1 where slot n is a member.
    bits: u32,
}

impl Model for SlotSet {
    ghost use Rattle.std.specs.Prelude.{◌≡◌, ◌<◌, ◌^◌, ℕ, refl};

    ghost Value = { ℕ };

    ghost view = { λ set. set.bits };

    ghost invariant = { λ set. set.bits < 2 ^ 32 };

    ghost inverse = { λ set. record { bits = set } };

    ghost inverse_ok = { λ a within i. a };
}

impl SlotSet {
    /// The set with no members.
    pub fn empty() -> SlotSet
        ensures { (slot : ℕ) → is_in result slot ≡ false }
    {
        SlotSet { bits: 0 }
    }

    /// Puts a slot in, or takes it out.
    pub fn set(&mut self, slot: u8, member: bool)
        requires { slot < most_slots }
        ensures { (other : ℕ) → is_in self.new other ≡ (if other == slot then member else is_in self.old other) }
    {
        let bit = 1u32 << slot;
        if member {
            self.bits |= bit;
        } else {
            self.bits &= !bit;
        }
    }

    /// The first member from a slot on.
    pub fn first_from(&self, slot: u8) -> Option<u8>
        ensures { MatchOption result (HasNoneFrom self.now slot) (IsFirstFrom self.now slot) }
    {
        let bits = self.bits;
        if slot >= MOST_SLOTS {
            return None;
        }
        let rest = bits & (u32::MAX << slot);
        if rest == 0 {
            return None;
        }
        Some(rest.trailing_zeros() as u8)
    }
}
