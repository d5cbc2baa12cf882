//! Names and formats by number.
ghost use Rattle.std.specs.Prelude.{◌≡◌, ℕ, ◌<◌, List, [], map, length, Some, slice_get, string_bytes, bytes_eq, IfOk, OnOk, OnErr};
ghost use Rattle.name_sets.specs.Texts.{with_text};
ghost use Rattle.resolved_tree.specs.Words.{text_of};

use indexmap::IndexSet;
use std::alloc::{AllocError, Global};
use std::marker::Model;

/// The number of a name or of a format: its place in the table of them. Contracts see its text.
#[derive(Clone, Copy, PartialEq, Eq)]
pub struct Word(pub usize);

/// The names and formats of all texts, none of them twice, in the order in which they were added. Contracts see the
/// list of their bytes; a word's place in that list never changes.
#[derive(Drop)]
pub struct Words {
    texts: IndexSet<String>,
}

impl Model for Words {
    ghost Value = { List (List ℕ) };

    ghost view = { λ words. map string_bytes words.texts.keys };
}

impl Words {
    /// An empty table. It takes no memory yet.
    pub fn new(alloc: Global) -> Words
        ensures { result ≡ [] }
    {
        Words {
            texts: IndexSet::new(alloc),
        }
    }

    /// How many words there are.
    pub fn len(&self) -> usize
        ensures { result ≡ length self.now }
    {
        self.texts.len()
    }

    /// The word of a text, which is added at the end if the table doesn't have it. Lack of memory changes nothing.
    pub fn add(&mut self, text: &str) -> Result<Word, AllocError>
        ensures texts { OnOk result (self.new ≡ with_text self.old text.now) }
        ensures word { IfOk result (λ word. slice_get self.new word.0 ≡ Some text.now) }
        ensures within { IfOk result (λ word. word.0 < length self.new) }
        ensures fault { OnErr result (self.new ≡ self.old) }
    {
        if let Some(index) = self.texts.get_index_of(text) {
            return Ok(Word(index));
        }
        let index = self.texts.len();
        let owned = String::from_str(*self.texts.allocator(), text)?;
        self.texts.insert(owned)?;
        Ok(Word(index))
    }

    /// The text of a word, which is empty where the table has no such word.
    pub fn text(&self, word: Word) -> &str
        ensures { result.now ≡ text_of self.now word }
    {
        match self.texts.as_slice().get(word.0) {
            Some(text) => text.as_str(),
            None => "",
        }
    }

    /// Whether two words have the same text.
    pub fn same(&self, a: Word, b: Word) -> bool
        ensures { result ≡ bytes_eq (text_of self.now a) (text_of self.now b) }
    {
        a == b || self.text(a) == self.text(b)
    }
}
