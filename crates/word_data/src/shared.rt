//! What is kept, and which stop does what.
ghost use Rattle.std.specs.Prelude.{◌≡◌, ◌+◌, ◌++◌, ◌<◌, ◌≤◌, IfOk, List, None, OnErr, OnOk, length, map, replicate, vec_capacity, ℕ};
ghost use Rattle.std.specs.FinMap.{empty};
ghost use Rattle.name_sets.specs.Limit.{most_names};
ghost use Rattle.c_tree.specs.BareDef.{BareDef};
ghost use Rattle.c_semantics.specs.Stops as seen_stop;
ghost use Rattle.program_locks.specs.Slots.{most_slots};
ghost use Rattle.resolved_tree.specs.Trees.{table};
ghost use Rattle.thread_state.specs.Frames.{IsSameOutside};
ghost use Rattle.code_runs.specs.CodeData.{Names};
ghost use Rattle.word_data.specs.declared.stop.Did.TheVariants.{Waits as WaitsDid};
ghost use Rattle.word_data.specs.Resolved.{Resolves, takes};
ghost use Rattle.word_data.specs.Lengths.{longest_of};
ghost use Rattle.word_data.specs.Performing.{LeavesOne, MayFail, Performs};

use crate::print::print_newest;
use crate::stop::{Did, SharedStop, Stack};
use object_store::Objects;
use program_locks::Locks;
use resolved_tree::Trees;
use std::alloc::{AllocError, Global};
use std::marker::Model;

/// What the threads of a run of code share: the words of each global and array, by the number of its name; the objects that live; the
/// holder of each mutex.
#[derive(Drop)]
pub struct WordData {
    pub(crate) cells: Vec<Vec<u64>>,
    pub(crate) objects: Objects,
    pub(crate) locks: Locks,
    /// How many mutexes have a number.
    pub(crate) mutexes: usize,
    /// How many texts were installed after the first.
    pub(crate) version: u32,
}

impl Model for WordData {
    ghost use Rattle.std.specs.Prelude.{map};
    ghost use Rattle.code_runs.specs.CodeData.{Data};
    ghost use Rattle.word_data.specs.Kept.{AreNumbered, data_code};

    ghost Value = { Data };

    ghost coded = { data_code };

    ghost view = { λ d. record { cells = map (λ v. v.items) d.cells.items; objects = d.objects; holders = d.locks; version = d.version } };

    ghost invariant = { λ d. AreNumbered d.locks d.mutexes };
}

impl WordData {
    /// Globals and arrays with these words, room for so many objects, and so many mutexes, none of which is held; no newer text was
    /// installed. It takes all memory that is ever needed.
    pub fn new(
        alloc: Global,
        cells: Vec<Vec<u64>>,
        objects: u32,
        mutexes: usize,
    ) -> Result<WordData, AllocError>
        requires { mutexes ≤ most_names }
        ensures { IfOk result (λ d. d ≡ record {
          cells = map (λ v. v.items) cells.items;
          objects = record { capacity = objects; created = 0; live = empty };
          holders = replicate mutexes None;
          version = 0;
        }) }
    {
        Ok(WordData {
            cells,
            objects: Objects::with_capacity(alloc, objects)?,
            locks: Locks::new(alloc, mutexes)?,
            mutexes,
            version: 0,
        })
    }

    /// Makes a stop of the thread in a slot. It takes its words from the top of the stack, which is a part of `words`, and leaves its own
    /// there, for which there is room for one more; its bytes are added to `printed`. `trees` has the text of its format. Where it traps
    /// or waits, no word has changed.
    ///
    /// It takes the same time whatever the number of globals, objects, mutexes and slots; a print takes time linear in its bytes. Out of
    /// memory only where `printed` has no room for as many bytes as the print writes at most ([`longest_print`]), and then it may have
    /// got a prefix of them; or where a creation would be the one after 2^32 - 1 others. Nothing else has changed then.
    pub fn perform(
        &mut self,
        trees: &Trees,
        slot: u8,
        stop: SharedStop,
        words: &mut [u64],
        stack: Stack,
        printed: &mut Vec<u8>,
    ) -> Result<Did, AllocError>
        requires slot { slot < most_slots }
        requires taken { takes stop ≤ stack.height }
        requires space { stack.low + stack.height < length words.old }
        ensures performs { (names : Names) (text : List BareDef) (seen : seen_stop.Stop) → Resolves (table trees.now) names text seen stop
            → IfOk result (λ did. (bytes : List ℕ) × ((printed.new.items ≡ printed.old.items ++ bytes)
            × Performs names text slot seen stack self.old words.old did self.new words.new bytes)) }
        ensures elsewhere { IsSameOutside stack.low (stack.low + stack.height + 1) words.old words.new }
        ensures keeps { IfOk result (λ did. LeavesOne (takes stop) stack did words.old words.new) }
        ensures long { OnOk result (length printed.new.items ≤ length printed.old.items + longest_of (table trees.now) stop) }
        ensures capacity { vec_capacity printed.old ≤ vec_capacity printed.new }
        ensures created { (n : ℕ) → self.old.objects.created ≤ n → self.new.objects.created ≤ 1 + n }
        ensures version { self.new.version ≡ self.old.version }
        ensures waits { IfOk result (λ did. (holder : ℕ) → did ≡ WaitsDid holder
            → (self.new.objects.created ≡ self.old.objects.created) × (printed.new ≡ printed.old)) }
        ensures fault { OnErr result ((self.new ≡ self.old) × (words.new ≡ words.old)) }
        ensures cause { OnErr result (MayFail (table trees.now) stop self.old printed.old) }
    {
        match stop {
            SharedStop::ReadGlobal(n) => Ok(self.read_global(n, words, stack)),
            SharedStop::WriteGlobal(n) => Ok(self.write_global(n, words, stack)),
            SharedStop::ReadElement(n) => Ok(self.read_element(n, words, stack)),
            SharedStop::WriteElement(n) => Ok(self.write_element(n, words, stack)),
            SharedStop::ReadField(n) => Ok(self.read_field(n, words, stack)),
            SharedStop::WriteField(n) => Ok(self.write_field(n, words, stack)),
            SharedStop::New(tag) => self.allocate(tag, words, stack),
            SharedStop::Free => Ok(self.release(words, stack)),
            SharedStop::Print(format, count) => {
                print_newest(printed, trees.text(format), words, stack, count)
            }
            SharedStop::InitMutex(n) => Ok(self.initialise(n, words, stack)),
            SharedStop::Lock(n) => Ok(self.lock(n, slot, words, stack)),
            SharedStop::Unlock(n) => Ok(self.unlock(n, slot, words, stack)),
        }
    }
}
