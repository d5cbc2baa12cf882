//! Global cells.
ghost use Rattle.std.specs.Prelude.{◌≡◌, ◌-◌, ◌<◌, ◌≤◌, ◌^◌, [], ◌∷◌, ◌++◌, length, slice_index, slice_set, OnOk};

use std::alloc::{AllocError, Global};
use std::marker::Model;

/// Cells of globals and arrays, each a word. Contracts see the list of words, and for how many further ones there is room.
#[derive(Drop)]
pub struct Cells {
    words: Vec<u64>,
}

impl Model for Cells {
    ghost use Rattle.std.specs.Prelude.{◌-◌, length, vec_capacity};
    ghost use Rattle.object_store.specs.Cells.{CellRows};

    ghost Value = { CellRows };

    ghost view = { λ c. record { words = c.words.items; spare = vec_capacity c.words - length c.words.items } };
}

impl Cells {
    /// No cells, and no room for any.
    pub fn new(alloc: Global) -> Cells
        ensures { result.words ≡ [] }
    {
        Cells {
            words: Vec::new(alloc),
        }
    }

    /// Makes room for so many further cells. An error leaves all as it was.
    pub fn reserve_cells(&mut self, count: u32) -> Result<(), AllocError>
        ensures words { self.new.words ≡ self.old.words }
        ensures room { OnOk result (count ≤ self.new.spare) }
        ensures kept { self.old.spare ≤ self.new.spare }
    {
        self.words.reserve(count as usize)
    }

    /// Adds a cell, for which there is room, and gives its number.
    pub fn add_cell(&mut self, word: u64) -> u32
        requires room { 0 < self.old.spare }
        requires few { length self.old.words < 2 ^ 32 - 1 }
        ensures number { result ≡ length self.old.words }
        ensures added { self.new ≡ record { words = self.old.words ++ word ∷ []; spare = self.old.spare - 1 } }
    {
        let number = self.words.len() as u32;
        self.words.push_reserved(word);
        number
    }

    /// The number of cells.
    pub fn len(&self) -> usize
        ensures { result ≡ length self.now.words }
    {
        self.words.len()
    }

    /// The word of a cell.
    pub fn read(&self, cell: u32) -> u64
        requires { cell < length self.now.words }
        ensures { result ≡ slice_index self.now.words cell }
    {
        self.words[cell as usize]
    }

    /// Changes the word of a cell.
    pub fn write(&mut self, cell: u32, word: u64)
        requires { cell < length self.old.words }
        ensures { self.new ≡ record self.old { words = slice_set self.old.words cell word } }
    {
        self.words[cell as usize] = word;
    }
}
