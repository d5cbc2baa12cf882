//! What is kept of a transaction's record.
ghost use Rattle.std.specs.Prelude.{◌≡◌, ◌<◌, ◌++◌, ◌∷◌, [], List, IsTrue, OnErr, OnOk};
ghost use Rattle.std.specs.List.{list_any};
ghost use Rattle.c_tree.specs.BareDef.{BareDef};
ghost use Rattle.c_semantics.specs.Threads.{Record as Uses};
ghost use Rattle.source_model.specs.JournalLaws.{HasMain};
ghost use Rattle.source_model.specs.Spans.{span};
ghost use Rattle.source_model.specs.Uses.{use_of};
ghost use Rattle.source_model.specs.Versions.{Table, current, next_table};
ghost use Rattle.version_laws.specs.Histories.{last_text};
ghost use Rattle.version_spans.specs.Beginnings.{IsTableOf, differ, is_defined};
ghost use Rattle.version_spans.specs.Kept.{AreBeginnings, IsKept, name_of, names_in, span_of};

use crate::began::Began;
use crate::names::{NameForm, NameSet};
use std::alloc::{AllocError, Global};

/// The least and the greatest version to which all definitions of a record belong; 0 and 0 where they share none.
#[derive(Clone, Copy, Debug, PartialEq, Eq)]
pub struct Span {
    /// The slot of the transaction's thread.
    pub slot: u8,
    pub first: usize,
    pub last: usize,
}

/// What is kept of a record.
#[derive(Drop)]
pub struct Record {
    /// The greatest of the versions in which its entries began; 1 where it has none.
    first: usize,
    /// The least of the last versions of its entries, once one has ended.
    last: Option<usize>,
    /// The names that are used, as long as no entry has ended.
    names: NameSet,
}

impl Record {
    /// The record of a transaction that begins. It takes no memory yet.
    pub fn new(alloc: Global) -> Record
        ensures { (table : Table) → 0 < current table → IsKept table [] result }
    {
        Record {
            first: 1,
            last: None,
            names: NameSet::new(alloc),
        }
    }

    /// A name is used. One that is there already costs one look and no memory; lack of memory changes nothing.
    pub fn add(&mut self, began: &Began, form: NameForm, text: &str) -> Result<(), AllocError>
        ensures kept { (texts : List (List BareDef)) (table : Table) (uses : Uses) → IsTableOf texts table → AreBeginnings texts began.now
            → IsTrue (is_defined table (name_of form text.now)) → IsKept table uses self.old
            → OnOk result (IsKept table (uses ++ use_of table (name_of form text.now) ∷ []) self.new) }
        ensures fault { OnErr result (self.new ≡ self.old) }
    {
        if self.last.is_none() {
            if self.names.has(form, text) {
                return Ok(());
            }
            self.names.put(form, text)?;
        }
        self.first = self.first.max(began.since(form, text));
        Ok(())
    }

    /// A newer text was installed, and `began` has followed it already. It takes no memory, and gives that of
    /// the names back where one of them changes.
    pub fn follow(&mut self, began: &Began)
        ensures { (texts : List (List BareDef)) (q : List BareDef) (table : Table) (uses : Uses) → IsTableOf texts table → HasMain q
            → AreBeginnings (texts ++ q ∷ []) began.now → IsKept table uses self.old
            → IsKept (next_table (current table) (last_text texts) q table) uses self.new }
    {
        if self.last.is_none() && self.has_changed(began) {
            self.last = Some(began.version().saturating_sub(1));
            self.names.clear();
        }
    }

    /// The versions that the record's entries share, where `version` is the current one.
    pub fn span(&self, slot: u8, version: usize) -> Span
        ensures { (table : Table) (uses : Uses) → IsKept table uses self.now → version ≡ current table
            → span table slot uses ≡ span_of result }
    {
        let last = self.last.unwrap_or(version);
        if self.first > last {
            return Span {
                slot,
                first: 0,
                last: 0,
            };
        }
        Span {
            slot,
            first: self.first,
            last,
        }
    }

    /// Whether the last text differs on one of the names from the text before.
    fn has_changed(&self, began: &Began) -> bool
        ensures { (texts : List (List BareDef)) (q : List BareDef) → AreBeginnings (texts ++ q ∷ []) began.now
            → result ≡ list_any (differ (last_text texts) q) (names_in self.now.names) }
    {
        match began.newest() {
            Some(names) => self.names.meets(names),
            None => false,
        }
    }
}
