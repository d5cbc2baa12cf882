//! The changes of all versions.
ghost use Rattle.std.specs.Prelude.{◌≡◌, ◌+◌, ◌-◌, ◌≤◌, List, [], ◌∷◌, ◌++◌, Contains, OnOk, OnErr, length, option_copied};
ghost use Rattle.c_tree.specs.BareExpr.{Bytes};
ghost use Rattle.c_tree.specs.BareDef.{BareDef};
ghost use Rattle.code_runs.specs.CodeData.{number_of};
ghost use Rattle.word_layouts.specs.ChangedWords.{brought_words, change_at, change_of};
ghost use Rattle.code_runs.specs.Layouts.{Brings};
ghost use Rattle.version_laws.specs.Histories.{last_text};
ghost use Rattle.word_layouts.specs.WordChanges.{AreChangesOf, HasFewFields, StandFor};

use crate::change::WordChange;
use crate::step::change_words;
use name_sets::NameId;
use object_store::Object;
use std::alloc::{AllocError, Global};

/// What changes objects where the next version follows one: those of each struct, by the number of its tag.
#[derive(Drop)]
pub struct VersionChanges {
    pub structs: Vec<Option<WordChange>>,
}

impl VersionChanges {
    /// What changes the objects of the struct with a tag.
    fn of(&self, tag: NameId) -> Option<&WordChange>
        ensures { option_copied result ≡ change_of self.now tag }
    {
        match self.structs.get(tag.index()) {
            Some(Some(change)) => Some(change),
            _ => None,
        }
    }
}

/// What changes objects from version to version.
#[derive(Drop)]
pub struct WordLayouts {
    versions: Vec<VersionChanges>,
}

impl WordLayouts {
    /// The changes of a first version, which are none. It takes no memory.
    pub fn new(alloc: Global) -> WordLayouts
        ensures none { result.versions.items ≡ [] }
        ensures stands { (text : List BareDef) (tags : List Bytes) → HasFewFields text → StandFor (text ∷ []) tags result.versions.items }
    {
        WordLayouts {
            versions: Vec::new(alloc),
        }
    }

    /// What changes the objects of the struct with a tag where the next version follows one.
    fn after(&self, version: u32, tag: NameId) -> Option<&WordChange>
        ensures { option_copied result ≡ change_at self.now.versions.items tag version }
    {
        match self.versions.get(version as usize) {
            Some(changes) => changes.of(tag),
            None => None,
        }
    }

    /// Brings an object to a version, which isn't before that whose layout it has. It takes no memory.
    pub fn bring(&self, object: &mut Object, version: u32)
        requires { object.old.layout ≤ version }
        ensures words { object.new ≡ record object.old {
          layout = version;
          fields = brought_words (change_at self.now.versions.items object.old.tag) object.old.layout (version - object.old.layout) object.old.fields;
        } }
        ensures brings { (texts : List (List BareDef)) (tags : List Bytes) (tag : Bytes)
            → StandFor texts tags self.now.versions.items → version + 1 ≡ length texts → Contains tags tag → object.old.tag ≡ number_of tags tag
            → Brings texts tag object.old object.new }
    {
        if object.layout == version {
            return;
        }
        let tag = object.tag;
        for number in object.layout..version {
            let change = self.after(number, tag);
            change_words(change, &mut object.fields);
        }
        object.layout = version;
    }

    /// Adds the changes of a text that becomes the newest version. When out of memory they are dropped, and nothing has changed.
    pub fn add(&mut self, changes: VersionChanges) -> Result<(), AllocError>
        ensures stands { (texts : List (List BareDef)) (q : List BareDef) (tags : List Bytes)
            → StandFor texts tags self.old.versions.items → HasFewFields q → AreChangesOf (last_text texts) q tags changes
            → OnOk result (StandFor (texts ++ q ∷ []) tags self.new.versions.items) }
        ensures fault { OnErr result (self.new.versions.items ≡ self.old.versions.items) }
    {
        self.versions.push(changes)?;
        Ok(())
    }
}
