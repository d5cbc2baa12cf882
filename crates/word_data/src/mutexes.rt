//! Mutexes.
ghost use Rattle.std.specs.Prelude.{◌≡◌, ◌+◌, ◌<◌, ◌≤◌, length, slice_set};
ghost use Rattle.std.specs.Option.{SomeIff};
ghost use Rattle.name_sets.specs.Limit.{most_names};
ghost use Rattle.program_locks.specs.Slots.{most_slots};
ghost use Rattle.program_locks.specs.Locking.{holder_of, init_answer, lock_answer, locked, unlock_answer, unlocked};
ghost use Rattle.thread_state.specs.Frames.{IsSameOutside};
ghost use Rattle.code_runs.specs.CodeData.{Data};
ghost use Rattle.code_runs.specs.SharedStops.{with_holders};
ghost use Rattle.word_data.specs.Performing.{Calls, LeavesOne, Settles};

use crate::shared::WordData;
use crate::stack::leave;
use crate::stop::{Did, Stack};
use name_sets::NameId;
use program_locks::LockAnswer;
use run_types::TrapKind;

/// The mutex with a number, if there are more.
pub(crate) fn mutex(mutexes: usize, n: u32) -> Option<NameId>
    requires { mutexes ≤ most_names }
    ensures { SomeIff result (n < mutexes) n }
{
    let n = n as usize;
    if n < mutexes { NameId::new(n) } else { None }
}

/// Leaves what a call on a mutex gives that was made, the word 0.
fn answered(answer: LockAnswer, words: &mut [u64], stack: Stack) -> Did
    requires { stack.low + stack.height < length words.old }
    ensures calls { (old new : Data) → Settles answer old new → Calls answer old new words.old stack result words.new }
    ensures elsewhere { IsSameOutside stack.low (stack.low + stack.height + 1) words.old words.new }
    ensures keeps { LeavesOne 0 stack result words.old words.new }
{
    match answer {
        LockAnswer::Done => leave(words, stack, 0, 0),
        LockAnswer::Waits(holder) => Did::Waits(holder),
        LockAnswer::Trap(kind) => Did::Trap(kind),
    }
}

impl WordData {
    /// The slot of the thread that holds the mutex with a number, if one does.
    pub fn holder(&self, n: u32) -> Option<u8>
        ensures { result ≡ holder_of self.now.holders n }
    {
        match mutex(self.mutexes, n) {
            Some(name) => self.locks.holder(name),
            None => None,
        }
    }

    /// Makes a mutex free where nobody holds it.
    pub(crate) fn initialise(&self, n: u32, words: &mut [u64], stack: Stack) -> Did
        requires { stack.low + stack.height < length words.old }
        ensures calls { let d = self.now in Calls (init_answer (holder_of d.holders n)) d d words.old stack result words.new }
        ensures elsewhere { IsSameOutside stack.low (stack.low + stack.height + 1) words.old words.new }
        ensures keeps { LeavesOne 0 stack result words.old words.new }
    {
        let answer = match mutex(self.mutexes, n) {
            Some(name) => self.locks.init(name),
            None => LockAnswer::Done,
        };
        answered(answer, words, stack)
    }

    /// Takes a mutex, unless another thread holds it.
    pub(crate) fn lock(&mut self, n: u32, slot: u8, words: &mut [u64], stack: Stack) -> Did
        requires slot { slot < most_slots }
        requires space { stack.low + stack.height < length words.old }
        ensures holders { self.new ≡ with_holders self.old (slice_set self.old.holders n (locked (holder_of self.old.holders n) slot)) }
        ensures calls { Calls (lock_answer (holder_of self.old.holders n) slot) self.old self.new words.old stack result words.new }
        ensures elsewhere { IsSameOutside stack.low (stack.low + stack.height + 1) words.old words.new }
        ensures keeps { LeavesOne 0 stack result words.old words.new }
    {
        let answer = match mutex(self.mutexes, n) {
            Some(name) => self.locks.lock(name, slot),
            None => LockAnswer::Done,
        };
        answered(answer, words, stack)
    }

    /// Gives a mutex back.
    pub(crate) fn unlock(&mut self, n: u32, slot: u8, words: &mut [u64], stack: Stack) -> Did
        requires { stack.low + stack.height < length words.old }
        ensures holders { self.new ≡ with_holders self.old (slice_set self.old.holders n (unlocked (holder_of self.old.holders n) slot)) }
        ensures calls { Calls (unlock_answer (holder_of self.old.holders n) slot) self.old self.new words.old stack result words.new }
        ensures elsewhere { IsSameOutside stack.low (stack.low + stack.height + 1) words.old words.new }
        ensures keeps { LeavesOne 0 stack result words.old words.new }
    {
        let answer = match mutex(self.mutexes, n) {
            Some(name) => self.locks.unlock(name, slot),
            None => LockAnswer::Trap(TrapKind::Unlock),
        };
        answered(answer, words, stack)
    }
}
