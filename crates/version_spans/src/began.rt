//! Since which versions names have their definitions.
ghost use Rattle.std.specs.Prelude.{◌≡◌, ◌++◌, ◌∷◌, [], List, IfOk, OnErr, OnOk, length, map, option_copied, slice_get, ◌-◌};
ghost use Rattle.c_tree.specs.Bare.{bare_def};
ghost use Rattle.c_tree.specs.BareDef.{BareDef};
ghost use Rattle.version_laws.specs.Histories.{last_text};
ghost use Rattle.version_spans.specs.Beginnings.{since};
ghost use Rattle.version_spans.specs.Kept.{AreBeginnings, AreDifferences, name_of};

use crate::differences::differences;
use crate::names::{NameForm, NameSet};
use c_tree::Def;
use c_types::Typed;
use std::alloc::{AllocError, Global};

/// For the text of each version the names on which it differs from the one before; the first text has a text without
/// definitions before it.
#[derive(Drop)]
pub struct Began {
    differences: Vec<NameSet>,
}

impl Began {
    /// That of a first text.
    pub fn new(alloc: Global, first: &Typed) -> Result<Began, AllocError>
        ensures { IfOk result (AreBeginnings (map bare_def first.now.definitions ∷ [])) }
    {
        let mut differences = Vec::new(alloc);
        let names = differences_from_nothing(alloc, first)?;
        differences.push(names)?;
        Ok(Began { differences })
    }

    /// A newer text follows the last one. Where memory runs out, what is kept stays that of the texts before.
    pub fn follow(&mut self, old: &Typed, new: &Typed) -> Result<(), AllocError>
        ensures follows { (texts : List (List BareDef)) → last_text texts ≡ map bare_def old.now.definitions → AreBeginnings texts self.old
            → OnOk result (AreBeginnings (texts ++ map bare_def new.now.definitions ∷ []) self.new) }
        ensures stays { OnErr result ((texts : List (List BareDef)) → AreBeginnings texts self.old → AreBeginnings texts self.new) }
    {
        let alloc = *self.differences.allocator();
        let earlier = old.program().definitions.as_slice();
        let later = new.program().definitions.as_slice();
        let names = differences(alloc, earlier, later)?;
        self.differences.push(names)?;
        Ok(())
    }

    /// Forgets the last text, as where its install ran out of memory.
    pub fn forget_last(&mut self)
        ensures { (texts : List (List BareDef)) (q : List BareDef) → AreBeginnings (texts ++ q ∷ []) self.old → AreBeginnings texts self.new }
    {
        let _ = self.differences.pop();
    }

    /// How many versions there are.
    pub fn version(&self) -> usize
        ensures { (texts : List (List BareDef)) → AreBeginnings texts self.now → result ≡ length texts }
    {
        self.differences.len()
    }

    /// The version since which a name has its current definition.
    pub fn since(&self, form: NameForm, text: &str) -> usize
        ensures { (texts : List (List BareDef)) → AreBeginnings texts self.now → result ≡ since texts (name_of form text.now) }
    {
        let mut version = self.differences.len();
        while version > 0 {
            if self.differences[version - 1].has(form, text) {
                return version;
            }
            version -= 1;
        }
        0
    }

    /// The names on which the last text differs from the one before.
    pub(crate) fn newest(&self) -> Option<&NameSet>
        ensures { option_copied result ≡ slice_get self.now.differences.items (length self.now.differences.items - 1) }
    {
        self.differences.last()
    }
}

/// The names on which a text differs from a text without definitions.
fn differences_from_nothing(alloc: Global, text: &Typed) -> Result<NameSet, AllocError>
    ensures { IfOk result (AreDifferences [] (map bare_def text.now.definitions)) }
{
    let none: [Def; 0] = [];
    differences(alloc, &none, text.program().definitions.as_slice())
}
