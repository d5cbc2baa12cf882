//! Sets of texts.
ghost use Rattle.std.specs.Prelude.{◌≡◌, ℕ, List, [], OnErr, OnOk, map, string_bytes};
ghost use Rattle.std.specs.List.{list_any};
ghost use Rattle.name_sets.specs.NameLists.{is_among};
ghost use Rattle.name_sets.specs.Texts.{with_text};

use indexmap::IndexSet;
use std::alloc::{AllocError, Global};
use std::marker::Model;

/// Texts, none of them twice. Contracts see their list.
#[derive(Drop)]
pub(crate) struct TextSet {
    texts: IndexSet<String>,
}

impl Model for TextSet {
    ghost Value = { List (List ℕ) };

    ghost view = { λ set. map string_bytes set.texts.keys };
}

impl TextSet {
    /// No texts. It takes no memory yet.
    pub(crate) fn new(alloc: Global) -> TextSet
        ensures { result ≡ [] }
    {
        TextSet {
            texts: IndexSet::new(alloc),
        }
    }

    /// Whether a text is in the set.
    pub(crate) fn has(&self, text: &str) -> bool
        ensures { result ≡ is_among self.now text.now }
    {
        self.texts.get_index_of(text).is_some()
    }

    /// Puts a text in, if it isn't there. Lack of memory changes nothing.
    pub(crate) fn put(&mut self, text: &str) -> Result<(), AllocError>
        ensures texts { OnOk result (self.new ≡ with_text self.old text.now) }
        ensures fault { OnErr result (self.new ≡ self.old) }
    {
        if self.texts.get_index_of(text).is_some() {
            return Ok(());
        }
        let owned = String::from_str(*self.texts.allocator(), text)?;
        self.texts.insert(owned)?;
        Ok(())
    }

    /// Takes all texts out, and gives their memory back.
    pub(crate) fn clear(&mut self)
        ensures { self.new ≡ [] }
    {
        let alloc = *self.texts.allocator();
        self.texts = IndexSet::new(alloc);
    }

    /// The texts.
    fn texts(&self) -> &[String]
        ensures { map string_bytes result.now ≡ self.now }
    {
        self.texts.as_slice()
    }

    /// Whether some text of the set is in another.
    pub(crate) fn meets(&self, other: &TextSet) -> bool
        ensures { result ≡ list_any (is_among other.now) self.now }
    {
        some_is_in(self.texts(), other)
    }
}

/// Whether one of some texts is in a set.
fn some_is_in(texts: &[String], set: &TextSet) -> bool
    ensures { result ≡ list_any (is_among set.now) (map string_bytes texts.now) }
{
    for text in texts {
        if set.has(text.as_str()) {
            return true;
        }
    }
    false
}
