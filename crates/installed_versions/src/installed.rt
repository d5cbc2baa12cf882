//! The versions of a run so far.
ghost use Rattle.std.specs.Prelude.{◌≡◌, ℕ, ◌<◌, ◌≤◌, List, [], ◌∷◌, ◌++◌, None, false, length, map, option_copied, string_bytes, IfOk, IfErr, OnOk, OnErr};
ghost use Rattle.std.specs.Arc.{arc_value};
ghost use Rattle.c_semantics.specs.SourceTexts.{Text, text_of};
ghost use Rattle.c_semantics.specs.Store.{store};
ghost use Rattle.c_tree.specs.BareExpr.{Bytes};
ghost use Rattle.code_store.specs.Limits.{are_too_many};
ghost use Rattle.name_sets.specs.Limit.{most_names};
ghost use Rattle.name_sets.specs.Texts.{IsTable};
ghost use Rattle.code_store.specs.Stored.{meant_body, IsStoreOf};
ghost use Rattle.rows_in_force.specs.StoreRows.{AreRowsOver};
ghost use Rattle.patch_build.specs.Tables.{with_texts};
ghost use Rattle.patch_build.specs.Versions.{AreVersions, IsTableOf};
ghost use Rattle.source_model.specs.Patches.{all_names};
ghost use Rattle.installed_versions.specs.Firsts.{IsFirstFault, IsStoreFault};
ghost use Rattle.installed_versions.specs.Installed.{HasItsRows, IsInstalled, IsSeenAs, Replaces};

use crate::fault::FirstFault;
use brought_bodies::first_bodies;
use c_types::Typed;
use checkin_rows::Rows;
use code_store::{Store, StoredBody};
use name_sets::{Names, NamesFault};
use patch_build::Versions;
use sorted_names::names_in_order;
use std::alloc::{AllocError, Global};
use std::mem;
use std::sync::Arc;

/// The versions of a run so far.
#[derive(Drop)]
pub struct Installed {
    /// How many there are.
    count: u32,
    /// The names of all of them, and no others.
    names: Names,
    /// The bodies that they brought.
    store: Store,
    /// The rows over these bodies, once they were computed.
    rows: Option<Arc<Rows, Global>>,
}

/// What an install replaced.
#[derive(Drop)]
pub struct Replaced {
    /// The names before it.
    names: Names,
    /// How many bodies there were.
    bodies: usize,
    /// The rows over these bodies, if they were kept.
    rows: Option<Arc<Rows, Global>>,
}

impl Installed {
    /// The first version.
    pub fn first(alloc: Global, text: &Typed) -> Result<Installed, FirstFault>
        ensures installed { IfOk result (λ i. IsInstalled (text_of text.now ∷ []) i.count i.names i.store) }
        ensures rows { IfOk result HasItsRows }
        ensures fault { IfErr result (λ fault. IsFirstFault text.now fault) }
    {
        let names = names_of(alloc, text)?;
        let store = store_of(alloc, &names, text)?;
        Ok(Installed {
            count: 1,
            names,
            store,
            rows: None,
        })
    }

    /// How many versions there are; so the number of the last.
    pub fn count(&self) -> u32
        ensures { result ≡ self.now.count }
    {
        self.count
    }

    /// The names of all versions.
    pub fn names(&self) -> &Names
        ensures { result.now ≡ self.now.names }
    {
        &self.names
    }

    /// The bodies of all versions.
    pub fn store(&self) -> &Store
        ensures { result.now ≡ self.now.store }
    {
        &self.store
    }

    /// The rows over these bodies, if they are kept.
    pub fn rows(&self) -> Option<&Arc<Rows, Global>>
        ensures { option_copied result ≡ self.now.rows }
    {
        self.rows.as_ref()
    }

    /// Keeps the rows over these bodies, unless they are kept. It needs no memory.
    pub fn keep_rows(&mut self, rows: &Arc<Rows, Global>)
        ensures count { self.new.count ≡ self.old.count }
        ensures names { self.new.names ≡ self.old.names }
        ensures store { self.new.store ≡ self.old.store }
        ensures rows { HasItsRows self.old → AreRowsOver self.old.store (arc_value rows.now) → HasItsRows self.new }
    {
        if self.rows.is_some() {
            return;
        }
        if let Ok(shared) = Arc::try_clone(rows) {
            self.rows = Some(shared);
        }
    }

    /// The names of all versions, alone.
    pub fn into_names(self) -> Names
        ensures { result ≡ self.names }
    {
        self.names
    }

    /// The versions as a decision sees them, with the text of the last.
    pub fn versions<'a>(&'a self, last: &'a Typed) -> Versions<'a>
        ensures same { IsSeenAs result self.now.count self.now.names self.now.store }
        ensures versions { (texts before : List Text)
            → IsInstalled texts self.now.count self.now.names self.now.store
            → texts ≡ before ++ text_of last.now ∷ [] → AreVersions texts result }
    {
        Versions {
            count: self.count,
            names: &self.names,
            store: &self.store,
            last,
        }
    }

    /// Adds what a patch brings: the names of all versions with the new one, and its bodies. Rows over the bodies before are
    /// those of another store, so none are kept. What it replaced comes back, so that the install can be taken back. Out of
    /// memory, nothing changes.
    pub fn install(&mut self, names: Names, bodies: Vec<StoredBody>) -> Result<Replaced, AllocError>
        requires few { self.old.count < 64 }
        requires room { (table : List Bytes) → are_too_many
            (map (meant_body table) self.old.store ++ map (meant_body table) bodies.items) ≡ false }
        ensures installed { (texts : List Text) (next : Text)
            → IsInstalled texts self.old.count self.old.names self.old.store
            → IsTableOf (all_names (texts ++ next ∷ [])) names
            → IsStoreOf names (store (texts ++ next ∷ [])) (self.old.store ++ bodies.items)
            → OnOk result (IsInstalled (texts ++ next ∷ []) self.new.count self.new.names self.new.store) }
        ensures names { OnOk result (self.new.names ≡ names) }
        ensures rows { OnOk result (HasItsRows self.new) }
        ensures replaced { IfOk result (Replaces self.old self.new) }
        ensures fault { OnErr result (self.new ≡ self.old) }
    {
        let before = self.store.bodies().len();
        self.store.add_all(bodies)?;
        self.count += 1;
        Ok(Replaced {
            names: mem::replace(&mut self.names, names),
            bodies: before,
            rows: self.rows.take(),
        })
    }

    /// Takes the last install back.
    pub fn take_back(&mut self, replaced: Replaced)
        ensures { (before : Installed) → Replaces before self.old replaced → self.new ≡ before }
    {
        self.store.truncate(replaced.bodies);
        self.names = replaced.names;
        self.rows = replaced.rows;
        self.count = self.count.saturating_sub(1);
    }
}

/// The table of the names of a text, in the order of their bytes. It has room for them.
fn names_of(alloc: Global, text: &Typed) -> Result<Names, AllocError>
    ensures { IfOk result (λ names. IsTableOf (all_names (text_of text.now ∷ [])) names) }
{
    let sorted = names_in_order(alloc, text.program().definitions.as_slice())?;
    let mut names = Names::new(alloc);
    add_all(&mut names, sorted.as_slice())?;
    Ok(names)
}

/// Adds texts to a table in their order. It has room for all, so only memory can be wanting.
fn add_all(names: &mut Names, texts: &[String]) -> Result<(), AllocError>
    requires { length (with_texts names.old (map string_bytes texts.now)) ≤ most_names }
    ensures { OnOk result (names.new ≡ with_texts names.old (map string_bytes texts.now)) }
{
    for text in texts {
        match names.add(text.as_str()) {
            Ok(_) => {}
            Err(NamesFault::Memory) => return Err(AllocError),
            Err(NamesFault::Full) => unreachable!(),
        }
    }
    Ok(())
}

/// The store of the bodies that a text brings as the first version.
fn store_of(alloc: Global, names: &Names, text: &Typed) -> Result<Store, FirstFault>
    ensures stored { IsTable names.now
        → IfOk result (λ stored. IsStoreOf names.now (store (text_of text.now ∷ [])) stored) }
    ensures fault { IfErr result (λ fault. IsStoreFault names.now text.now fault) }
{
    let bodies = first_bodies(alloc, names, text)?;
    let mut store = Store::new(alloc);
    if !store.has_room(&bodies) {
        return Err(FirstFault::StoreFull);
    }
    store.add_all(bodies)?;
    Ok(store)
}
