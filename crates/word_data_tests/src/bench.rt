//! Shared data, and a row of words on which stops are made.
ghost use Rattle.std.specs.Prelude.{◌≡◌};
ghost use Rattle.word_data.specs.Resolved.{takes};

use program_locks::MOST_SLOTS;
use resolved_tree::Trees;
use std::alloc::{AllocError, Global};
use word_data::{Did, SharedStop, Stack, WordData};

/// How many words the row has. A stack begins at its second word.
const WORDS: usize = 8;

/// What is outside of a stack.
const OUTSIDE: u64 = 77;

/// The words of globals and arrays.
static ROWS: [&[u64]; 3] = [&[7], &[10, 20, 30], &[]];

/// Shared data with the bytes that were printed.
#[derive(Drop)]
pub struct Bench {
    data: WordData,
    trees: Trees,
    printed: Vec<u8>,
}

/// How many words a stop takes at least.
fn takes(stop: &SharedStop) -> usize
    ensures { result ≡ takes stop.now }
{
    match stop {
        SharedStop::ReadGlobal(_) | SharedStop::New(_) => 0,
        SharedStop::InitMutex(_) | SharedStop::Lock(_) | SharedStop::Unlock(_) => 0,
        SharedStop::WriteGlobal(_) | SharedStop::ReadElement(_) => 1,
        SharedStop::ReadField(_) | SharedStop::Free => 1,
        SharedStop::WriteElement(_) | SharedStop::WriteField(_) => 2,
        SharedStop::Print(_, count) => *count,
    }
}

/// Whether a row has words on its stack, and all others but the one after `height` are as they were.
fn holds(row: &[u64; WORDS], height: usize, words: &[u64]) -> bool {
    let end = words.len() + 1;
    if end > WORDS || height > WORDS - 2 {
        return false;
    }
    row[0] == OUTSIDE && &row[1..end] == words && are_outside(&row[height + 2..])
}

/// Whether all of some words are as they were.
fn are_outside(words: &[u64]) -> bool {
    words.iter().all(|word| *word == OUTSIDE)
}

/// The words of a global with the word 7, of an array of three elements and of one of none.
fn rows(alloc: Global) -> Result<Vec<Vec<u64>>, AllocError> {
    let mut rows = Vec::new(alloc);
    for words in ROWS.iter() {
        rows.push(Vec::from_slice(alloc, words)?)?;
    }
    Ok(rows)
}

impl Bench {
    /// A global with the word 7, an array of the elements 10, 20 and 30, and one of none; room for so many objects; three mutexes.
    pub fn new(alloc: Global, objects: u32) -> Result<Bench, AllocError> {
        Ok(Bench {
            data: WordData::new(alloc, rows(alloc)?, objects, 3)?,
            trees: Trees::new(alloc),
            printed: Vec::new(alloc),
        })
    }

    /// Makes a stop with these words on the stack, in a row that is otherwise as at the start. `None` where the words are too few or too
    /// many, or there is no such slot.
    fn make(
        &mut self,
        slot: u8,
        stop: SharedStop,
        words: &[u64],
        row: &mut [u64; WORDS],
    ) -> Result<Option<Did>, AllocError> {
        let height = words.len();
        if slot >= MOST_SLOTS || height + 2 > WORDS || takes(&stop) > height {
            return Ok(None);
        }
        for (i, word) in words.iter().enumerate() {
            row[i + 1] = *word;
        }
        let stack = Stack { low: 1, height };
        let did = self
            .data
            .perform(&self.trees, slot, stop, row, stack, &mut self.printed)?;
        Ok(Some(did))
    }

    /// Whether a stop comes to something, with these words on the stack before and those after it.
    pub fn comes(
        &mut self,
        slot: u8,
        stop: SharedStop,
        before: &[u64],
        did: Did,
        after: &[u64],
    ) -> bool {
        let mut row = [OUTSIDE; WORDS];
        match self.make(slot, stop, before, &mut row) {
            Ok(Some(came)) => came == did && holds(&row, before.len(), after),
            _ => false,
        }
    }

    /// Whether a stop goes on, with these words on the stack before and those after it.
    pub fn goes(&mut self, stop: SharedStop, before: &[u64], after: &[u64]) -> bool {
        self.comes(0, stop, before, Did::On(after.len()), after)
    }

    /// The newest word after a stop that goes on with a word more.
    pub fn given(&mut self, stop: SharedStop) -> Option<u64> {
        let mut row = [OUTSIDE; WORDS];
        match self.make(0, stop, &[5], &mut row) {
            Ok(Some(Did::On(2))) => Some(row[2]),
            _ => None,
        }
    }

    /// Whether a print of a format with so many of these words adds some text.
    pub fn prints(&mut self, format: &str, count: usize, words: &[u64], text: &str) -> bool {
        let mut row = [OUTSIDE; WORDS];
        let Ok(word) = self.trees.word(format) else {
            return false;
        };
        self.printed.clear();
        match self.make(0, SharedStop::Print(word, count), words, &mut row) {
            Ok(Some(Did::On(_))) => self.printed.as_slice() == text.as_bytes(),
            _ => false,
        }
    }

    /// All that was printed since the last print by [`Bench::prints`].
    pub fn printed(&self) -> &[u8] {
        self.printed.as_slice()
    }

    /// Makes a print of a format with no arguments.
    pub fn print_more(&mut self, format: &str) -> bool {
        match self.trees.word(format) {
            Ok(word) => self.goes(SharedStop::Print(word, 0), &[], &[0]),
            Err(_) => false,
        }
    }
}
