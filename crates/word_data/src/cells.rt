//! Globals and arrays.
ghost use Rattle.std.specs.Prelude.{◌≡◌, ◌+◌, ◌<◌, ◌≤◌, [], ◌∷◌, IsFalse, length, map, nat_lt, slice_get, slice_index_or, slice_set};
ghost use Rattle.thread_state.specs.Frames.{IsSameOutside};
ghost use Rattle.code_runs.specs.CodeData.{row, with_row};
ghost use Rattle.code_runs.specs.SharedStops.{One, Two, goes, read_element, write_element};
ghost use Rattle.word_data.specs.Stacks.{stack_of};
ghost use Rattle.word_data.specs.Performing.{LeavesOne, Made};

use crate::shared::WordData;
use crate::stack::{leave, word_under};
use crate::stop::{Did, Stack};
use run_types::TrapKind;

/// A word of the row with a number, if there is one at the place.
fn cell(cells: &[Vec<u64>], n: u32, place: usize) -> Option<u64>
    ensures { result ≡ slice_get (slice_index_or (map (λ v. v.items) cells.now) n []) place }
{
    match cells.get(n as usize) {
        Some(row) => row.as_slice().get(place).copied(),
        None => None,
    }
}

/// Changes a word of the row with a number. The answer is whether there is one at the place.
fn set_cell(cells: &mut Vec<Vec<u64>>, n: u32, place: usize, word: u64) -> bool
    ensures inside { result ≡ nat_lt place (length (slice_index_or (map (λ v. v.items) cells.old.items) n [])) }
    ensures changed { let old = map (λ v. v.items) cells.old.items in
        map (λ v. v.items) cells.new.items ≡ slice_set old n (slice_set (slice_index_or old n []) place word) }
    ensures same { IsFalse result → map (λ v. v.items) cells.new.items ≡ map (λ v. v.items) cells.old.items }
{
    let n = n as usize;
    if n >= cells.len() {
        return false;
    }
    let row = &mut cells[n];
    if place >= row.len() {
        return false;
    }
    row[place] = word;
    true
}

impl WordData {
    /// Puts the word of a global on the stack; 0 where there is none with the number.
    pub(crate) fn read_global(&self, n: u32, words: &mut [u64], stack: Stack) -> Did
        requires { stack.low + stack.height < length words.old }
        ensures made { let d = self.now in Made d words.new stack [] result
            (λ x. x ≡ goes d (slice_index_or (row d n) 0 0 ∷ stack_of words.old stack)) }
        ensures elsewhere { IsSameOutside stack.low (stack.low + stack.height + 1) words.old words.new }
        ensures keeps { LeavesOne 0 stack result words.old words.new }
    {
        let word = cell(self.cells.as_slice(), n, 0).unwrap_or(0);
        leave(words, stack, 0, word)
    }

    /// Changes the word of a global to the newest one, which stays.
    pub(crate) fn write_global(&mut self, n: u32, words: &[u64], stack: Stack) -> Did
        requires taken { 1 ≤ stack.height }
        requires space { stack.low + stack.height < length words.now }
        ensures made { let d = self.old in Made self.new words.now stack [] result
            (λ x. One (stack_of words.now stack) (λ w under. x ≡ goes (with_row d n (slice_set (row d n) 0 w)) (w ∷ under))) }
        ensures keeps { LeavesOne 1 stack result words.now words.now }
        ensures objects { self.new.objects ≡ self.old.objects }
        ensures version { self.new.version ≡ self.old.version }
    {
        let word = word_under(words, stack, 0);
        set_cell(&mut self.cells, n, 0, word);
        Did::On(stack.height)
    }

    /// Puts an element in place of its index, which is the newest word.
    pub(crate) fn read_element(&self, n: u32, words: &mut [u64], stack: Stack) -> Did
        requires taken { 1 ≤ stack.height }
        requires space { stack.low + stack.height < length words.old }
        ensures made { let d = self.now in Made d words.new stack [] result
            (λ x. One (stack_of words.old stack) (λ i under. x ≡ read_element d n i under)) }
        ensures elsewhere { IsSameOutside stack.low (stack.low + stack.height + 1) words.old words.new }
        ensures keeps { LeavesOne 1 stack result words.old words.new }
    {
        let index = word_under(words, stack, 0);
        match cell(self.cells.as_slice(), n, index as usize) {
            Some(word) => leave(words, stack, 1, word),
            None => Did::Trap(TrapKind::Index),
        }
    }

    /// Changes an element to the newest word, which stays; its index under that goes.
    pub(crate) fn write_element(&mut self, n: u32, words: &mut [u64], stack: Stack) -> Did
        requires taken { 2 ≤ stack.height }
        requires space { stack.low + stack.height < length words.old }
        ensures made { Made self.new words.new stack [] result
            (λ x. Two (stack_of words.old stack) (λ w i under. x ≡ write_element self.old n i w under)) }
        ensures elsewhere { IsSameOutside stack.low (stack.low + stack.height + 1) words.old words.new }
        ensures keeps { LeavesOne 2 stack result words.old words.new }
        ensures objects { self.new.objects ≡ self.old.objects }
        ensures version { self.new.version ≡ self.old.version }
    {
        let word = word_under(words, stack, 0);
        let index = word_under(words, stack, 1);
        if set_cell(&mut self.cells, n, index as usize, word) {
            leave(words, stack, 2, word)
        } else {
            Did::Trap(TrapKind::Index)
        }
    }
}
