//! Shared data, and a row of words on which stops are made.
ghost use Rattle.std.specs.Prelude.{◌≡◌};
ghost use Rattle.word_data.specs.Resolved.{takes};

use name_sets::NameId;
use program_locks::MOST_SLOTS;
use resolved_tree::Trees;
use std::alloc::{AllocError, Global};
use type_transformers::Change;
use word_data::{Did, SharedStop, Stack, WordData};
use word_installs::{TextRow, freshen, install, prepare_rows};
use word_layouts::{VersionChanges, WordLayouts};

/// How many words the row has.
const WORDS: usize = 4;

/// Shared data with its layouts and the table of the text in force.
#[derive(Drop)]
pub struct Bench {
    data: WordData,
    layouts: WordLayouts,
    text: Vec<Option<TextRow>>,
    trees: Trees,
    printed: Vec<u8>,
}

/// How many words a stop takes at least.
fn takes(stop: &SharedStop) -> usize
    ensures { result ≡ takes stop.now }
{
    match stop {
        SharedStop::ReadGlobal(_) | SharedStop::New(_) => 0,
        SharedStop::InitMutex(_) | SharedStop::Lock(_) | SharedStop::Unlock(_) => 0,
        SharedStop::WriteGlobal(_) | SharedStop::ReadElement(_) => 1,
        SharedStop::ReadField(_) | SharedStop::Free => 1,
        SharedStop::WriteElement(_) | SharedStop::WriteField(_) => 2,
        SharedStop::Print(_, count) => *count,
    }
}

/// The first words of the rows of a table; none where it has no row.
fn first_rows(alloc: Global, text: &[Option<TextRow>]) -> Result<Vec<Vec<u64>>, AllocError> {
    let mut rows = Vec::new(alloc);
    for row in text {
        let words = match row {
            Some(row) => row.first.as_slice(),
            None => &[],
        };
        rows.push(Vec::from_slice(alloc, words)?)?;
    }
    Ok(rows)
}

impl Bench {
    /// The data of a first text with these globals and arrays, room for sixteen objects, and three mutexes.
    pub fn new(alloc: Global, text: Vec<Option<TextRow>>) -> Result<Bench, AllocError> {
        Ok(Bench {
            data: WordData::new(alloc, first_rows(alloc, text.as_slice())?, 16, 3)?,
            layouts: WordLayouts::new(alloc),
            text,
            trees: Trees::new(alloc),
            printed: Vec::new(alloc),
        })
    }

    /// Installs a text with these globals and arrays, with what changes of data and of objects, and without some mutexes.
    pub fn install(
        &mut self,
        alloc: Global,
        text: Vec<Option<TextRow>>,
        changes: &[Change],
        objects: VersionChanges,
        gone: &[u32],
    ) -> Result<(), AllocError> {
        if self.data.version() == u32::MAX || text.len() > 8 {
            return Err(AllocError);
        }
        let rows = prepare_rows(
            alloc,
            &self.data,
            self.text.as_slice(),
            text.as_slice(),
            changes,
        )?;
        self.layouts.add(objects)?;
        install(&mut self.data, rows, gone);
        self.text = text;
        Ok(())
    }

    /// Installs a text that changes objects alone.
    pub fn install_layout(
        &mut self,
        alloc: Global,
        objects: VersionChanges,
    ) -> Result<(), AllocError> {
        let text = Vec::new(alloc);
        self.install(alloc, text, &[], objects, &[])
    }

    /// What a stop of the thread in slot 0 comes to with these words on the stack, and the newest word after it.
    pub fn make(&mut self, stop: SharedStop, words: &[u64]) -> Option<u64> {
        let height = words.len();
        if height + 1 > WORDS || takes(&stop) > height {
            return None;
        }
        let mut row = [0; WORDS];
        for (i, word) in words.iter().enumerate() {
            row[i] = *word;
        }
        let stack = Stack { low: 0, height };
        freshen(&mut self.data, &self.layouts, stop, &row, stack);
        match self
            .data
            .perform(&self.trees, 0, stop, &mut row, stack, &mut self.printed)
        {
            Ok(Did::On(1)) => Some(row[0]),
            _ => None,
        }
    }

    /// The handle of a new object of the struct with a tag.
    pub fn created(&mut self, tag: usize) -> Option<u64> {
        self.make(SharedStop::New(NameId::new(tag)?), &[])
    }

    /// A field of an object.
    pub fn field(&mut self, handle: u64, place: u32) -> Option<u64> {
        self.make(SharedStop::ReadField(place), &[handle])
    }

    /// Changes a field of an object; whether it could.
    pub fn set_field(&mut self, handle: u64, place: u32, word: u64) -> bool {
        self.make(SharedStop::WriteField(place), &[handle, word]) == Some(word)
    }

    /// Whether the global or the array with a number has these words.
    pub fn has_row(&self, n: u32, words: &[u64]) -> bool {
        self.data.row(n) == words
    }

    /// Who holds a mutex.
    pub fn holder(&self, n: u32) -> Option<u8> {
        self.data.holder(n)
    }
}
