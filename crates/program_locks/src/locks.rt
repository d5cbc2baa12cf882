//! Who holds each mutex.
ghost use Rattle.std.specs.Prelude.{◌≡◌, ◌<◌, None, IfOk, length, replicate, slice_set};
ghost use Rattle.program_locks.specs.Slots.{most_slots, IsHolder};
ghost use Rattle.program_locks.specs.Locking.{holder_of, lock_answer, locked, unlock_answer, unlocked, init_answer};

use crate::answer::LockAnswer;
use name_sets::NameId;
use run_types::TrapKind;
use std::alloc::{AllocError, Global};
use std::marker::Model;

/// How many slots there are for threads.
pub const MOST_SLOTS: u8 = 16;

/// Who holds each mutex: the slot of a thread, or nobody. Contracts see the list of holders, by the numbers of the names.
#[derive(Drop)]
pub struct Locks {
    holders: Vec<Option<u8>>,
}

impl Model for Locks {
    ghost use Rattle.std.specs.Prelude.{ℕ, List, Option, All};
    ghost use Rattle.program_locks.specs.Slots.{IsHolder};

    ghost Value = { List (Option ℕ) };

    ghost view = { λ l. l.holders.items };

    ghost invariant = { λ l. All IsHolder l.holders.items };
}

impl Locks {
    /// Mutexes under so many names, none of them held.
    pub fn new(alloc: Global, names: usize) -> Result<Locks, AllocError>
        ensures free { IfOk result (λ locks. locks ≡ replicate names None) }
        ensures names { IfOk result (λ locks. length locks ≡ names) }
    {
        Ok(Locks {
            holders: vec![in alloc; None; names]?,
        })
    }

    /// The slot of the thread that holds a mutex, if one does.
    pub fn holder(&self, name: NameId) -> Option<u8>
        requires { name < length self.now }
        ensures value { result ≡ holder_of self.now name }
        ensures slot { IsHolder result }
    {
        self.holders[name.index()]
    }

    /// The thread in a slot locks a mutex. It waits exactly where another thread holds it, and traps where it does itself.
    pub fn lock(&mut self, name: NameId, slot: u8) -> LockAnswer
        requires name { name < length self.old }
        requires slot { slot < most_slots }
        ensures answer { result ≡ lock_answer (holder_of self.old name) slot }
        ensures holders { self.new ≡ slice_set self.old name (locked (holder_of self.old name) slot) }
        ensures names { length self.new ≡ length self.old }
    {
        match self.holders[name.index()] {
            None => {
                self.holders[name.index()] = Some(slot);
                LockAnswer::Done
            }
            Some(holder) if holder == slot => LockAnswer::Trap(TrapKind::Relock),
            Some(holder) => LockAnswer::Waits(holder),
        }
    }

    /// The thread in a slot unlocks a mutex. It traps exactly where it doesn't hold it.
    pub fn unlock(&mut self, name: NameId, slot: u8) -> LockAnswer
        requires { name < length self.old }
        ensures answer { result ≡ unlock_answer (holder_of self.old name) slot }
        ensures holders { self.new ≡ slice_set self.old name (unlocked (holder_of self.old name) slot) }
        ensures names { length self.new ≡ length self.old }
    {
        match self.holders[name.index()] {
            Some(holder) if holder == slot => {
                self.holders[name.index()] = None;
                LockAnswer::Done
            }
            _ => LockAnswer::Trap(TrapKind::Unlock),
        }
    }

    /// A thread initialises a mutex. It traps exactly where a thread holds it, and nothing changes.
    pub fn init(&self, name: NameId) -> LockAnswer
        requires { name < length self.now }
        ensures { result ≡ init_answer (holder_of self.now name) }
    {
        match self.holders[name.index()] {
            None => LockAnswer::Done,
            Some(_) => LockAnswer::Trap(TrapKind::MutexHeld),
        }
    }

    /// Nobody holds a mutex any more, as where it is gone.
    pub fn forget(&mut self, name: NameId)
        requires { name < length self.old }
        ensures free { self.new ≡ slice_set self.old name None }
        ensures names { length self.new ≡ length self.old }
    {
        self.holders[name.index()] = None;
    }
}
