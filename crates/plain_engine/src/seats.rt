//! The slots of a run.
ghost use Rattle.std.specs.Prelude.{◌≡◌, ◌<◌, length, slice_get, slice_set, MatchOption};
ghost use Rattle.plain_engine.specs.Kept.{HasNoThreadFrom, IsFirstThreadFrom};

use crate::seat::Seat;
use slot_sets::SlotSet;
use std::marker::Model;

/// What is kept of each slot, and the set of those in which a thread lives. Contracts see the list of what is kept.
#[derive(Drop)]
pub(crate) struct Seats {
    seats: [Seat; 16],
    /// The slots in which a thread lives.
    live: SlotSet,
}

impl Model for Seats {
    ghost use Rattle.std.specs.Prelude.{List};
    ghost use Rattle.plain_engine.specs.declared.seat.Seat.{Seat};
    ghost use Rattle.plain_engine.specs.Kept.{AreThreads};

    ghost Value = { List Seat };

    ghost view = { λ s. s.seats };

    ghost invariant = { λ s. AreThreads s.seats s.live };
}

impl Seats {
    /// The slots of which this is kept.
    pub(crate) fn of(seats: [Seat; 16]) -> Seats
        ensures { result ≡ seats }
    {
        let mut live = SlotSet::empty();
        for slot in 0..16u8 {
            live.set(slot, seats[slot as usize].is_there());
        }
        Seats { seats, live }
    }

    /// What is kept of each slot.
    pub(crate) fn all(&self) -> &[Seat; 16]
        ensures same { result.now ≡ self.now }
        ensures many { length result.now ≡ 16 }
    {
        &self.seats
    }

    /// What is kept of a slot, if it is there.
    #[inline(always)]
    pub(crate) fn get(&self, slot: u8) -> Option<Seat>
        ensures at { result ≡ slice_get self.now slot }
        ensures many { length self.now ≡ 16 }
    {
        self.seats.get(slot as usize).copied()
    }

    /// Keeps something else of a slot.
    pub(crate) fn set(&mut self, slot: u8, seat: Seat)
        requires { slot < 16 }
        ensures { self.new ≡ slice_set self.old slot seat }
    {
        self.live.set(slot, seat.is_there());
        self.seats[slot as usize] = seat;
    }

    /// The thread in a slot goes on after a move: it is at a check-in or not, and pinned or not.
    #[inline(always)]
    pub(crate) fn go_on(&mut self, slot: u8, at_check_in: bool, pinned: bool)
        requires { slot < 16 }
        ensures { (seat : Seat) → slice_get self.old slot ≡ Some seat
            → self.new ≡ slice_set self.old slot (record seat { at_check_in = at_check_in; pinned = pinned }) }
    {
        let seat = &mut self.seats[slot as usize];
        seat.at_check_in = at_check_in;
        seat.pinned = pinned;
    }

    /// The first slot from one on in which a thread lives.
    #[inline(always)]
    pub(crate) fn first_thread(&self, slot: u8) -> Option<u8>
        ensures first { MatchOption result (HasNoThreadFrom self.now slot) (IsFirstThreadFrom self.now slot) }
        ensures many { length self.now ≡ 16 }
    {
        self.live.first_from(slot)
    }
}
