//! The table of texts.
ghost use Rattle.std.specs.Prelude.{◌≡◌, ℕ, ◌<◌, ◌≤◌, ◌↔◌, ◌⊎◌, List, [], map, length, Contains, Some, slice_get, string_bytes, IsTrue, IsOk, IsErrOf, IfOk, IfSome, IfNone, OnOk, OnErr};
ghost use Rattle.std.specs.Bool.{OnFalse};
ghost use Rattle.name_sets.specs.Limit.{most_names};
ghost use Rattle.name_sets.specs.Texts.{IsTable, with_text, IsBefore};

use crate::{MOST_NAMES, NameId};
use indexmap::IndexSet;
use std::alloc::Global;
use std::cmp::Ordering;
use std::marker::Model;

/// Why a text was not added.
#[derive(Clone, Copy, Debug, PartialEq, Eq)]
pub enum NamesFault {
    /// The table has 2,048 other texts.
    Full,
    /// There was no memory for it.
    Memory,
}

/// A table of up to 2,048 texts, none of them twice, in the order in which they were added. Contracts
/// see the list of the texts, as bytes; a text's id is its place in that list, and never changes.
#[derive(Drop)]
pub struct Names {
    texts: IndexSet<String>,
}

impl Model for Names {
    ghost Value = { List (List ℕ) };

    ghost view = { λ names. map string_bytes names.texts.keys };

    ghost invariant = { λ names. IsTable (map string_bytes names.texts.keys) };
}

impl Names {
    /// An empty table. It takes no memory yet.
    pub fn new(alloc: Global) -> Names
        ensures { result ≡ [] }
    {
        Names {
            texts: IndexSet::new(alloc),
        }
    }

    /// The number of texts.
    pub fn len(&self) -> usize
        ensures value { result ≡ length self.now }
        ensures table { IsTable self.now }
    {
        self.texts.len()
    }

    /// The id of a text, which is added at the end if the table doesn't have it. `Full` comes exactly
    /// where 2,048 other texts are in the table, and after a fault the table is as it was.
    pub fn add(&mut self, text: &str) -> Result<NameId, NamesFault>
        ensures texts { OnOk result (self.new ≡ with_text self.old text.now) }
        ensures id { IfOk result (λ id. slice_get self.new id ≡ Some text.now) }
        ensures present { Contains self.old text.now → IsOk result }
        ensures full { IsErrOf result NamesFault.Full
            ↔ ((length self.old ≡ most_names) × (¬ Contains self.old text.now)) }
        ensures fault { OnErr result (self.new ≡ self.old) }
    {
        if let Some(id) = self.find(text) {
            return Ok(id);
        }
        let index = self.texts.len();
        if index == MOST_NAMES {
            return Err(NamesFault::Full);
        }
        let alloc = *self.texts.allocator();
        let Ok(owned) = String::from_str(alloc, text) else {
            return Err(NamesFault::Memory);
        };
        let Ok(_) = self.texts.insert(owned) else {
            return Err(NamesFault::Memory);
        };
        Ok(NameId::at(index))
    }

    /// The id of a text, or `None` if the table doesn't have it.
    pub fn find(&self, text: &str) -> Option<NameId>
        ensures found { IfSome result (λ id. slice_get self.now id ≡ Some text.now) }
        ensures absent { IfNone result (¬ Contains self.now text.now) }
    {
        let index = self.texts.get_index_of(text)?;
        Some(NameId::at(index))
    }

    /// The text of an id.
    pub fn text(&self, id: NameId) -> &str
        requires { id < length self.now }
        ensures { slice_get self.now id ≡ Some result.now }
    {
        self.texts.as_slice()[id.index()].as_str()
    }

    /// Whether the text of `a` comes before the text of `b` in the order of bytes.
    pub fn before(&self, a: NameId, b: NameId) -> bool
        requires first { a < length self.now }
        requires second { b < length self.now }
        ensures answer { IsTrue result ↔ IsBefore self.now a b }
        ensures other { OnFalse result ((a ≡ b) ⊎ IsBefore self.now b a) }
    {
        let texts = self.texts.as_slice();
        texts[a.index()].as_str().cmp(texts[b.index()].as_str()) == Ordering::Less
    }
}
