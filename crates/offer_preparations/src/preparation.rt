//! The preparation of an offer.
ghost use Rattle.std.specs.Prelude.{◌≡◌, true, option_copied, slice_get, IfOk, IfSome};
ghost use Rattle.std.specs.Arc.{arc_value};
ghost use Rattle.rows_in_force.specs.StoreRows.{AreRowsOver};
ghost use Rattle.installed_versions.specs.Installed.{HasItsRows};
ghost use Rattle.offer_preparations.specs.Preparations.{HasOwnRows, IsMade, IsPreparation, IsPreparedOn, trees_of};
ghost use Rattle.offer_preparations.specs.Fitting.{Fits};

use c_types::Typed;
use checkin_rows::Rows;
use code_store::Store;
use installed_versions::Installed;
use name_sets::Names;
use offer_decision::{Offered, Prepared, prepare};
use patch_build::Versions;
use std::alloc::{AllocError, Global};
use std::sync::Arc;
use version_copies::{copy_names, copy_store, same_names, same_store};

/// The preparation of an offer, on copies of what it needs of the versions so far.
#[derive(Drop)]
pub struct Preparation {
    /// The number of the offer, which is that of its text.
    k: u8,
    /// The number of the text of the last version.
    last: usize,
    /// How many versions there are.
    count: u32,
    /// The names of all of them.
    names: Names,
    /// The bodies that they brought.
    store: Store,
    /// The rows over these bodies, if they are kept.
    rows: Option<Arc<Rows, Global>>,
    /// The texts of the run.
    texts: Arc<Vec<Typed>, Global>,
    /// What was prepared.
    made: Option<Prepared>,
    alloc: Global,
}

impl Preparation {
    /// What preparing the offer with a number needs, where the last of the versions so far has the text with another number. The names
    /// and the bodies are copied; the texts are shared. Nothing is prepared yet.
    pub fn of(
        alloc: Global,
        k: u8,
        last: usize,
        texts: Arc<Vec<Typed>, Global>,
        installed: &Installed,
    ) -> Result<Preparation, AllocError>
        ensures texts { IfOk result (λ p. trees_of p ≡ (arc_value texts).items) }
        ensures is { HasItsRows installed.now → IfOk result IsPreparation }
    {
        let names = copy_names(alloc, installed.names())?;
        let store = copy_store(alloc, installed.store())?;
        Ok(Preparation {
            k,
            last,
            count: installed.count(),
            names,
            store,
            rows: rows_of(installed),
            texts,
            made: None,
            alloc,
        })
    }

    /// Prepares the offer. Where that fails, nothing is prepared.
    pub fn prepare(&mut self)
        ensures texts { trees_of self.new ≡ trees_of self.old }
        ensures is { IsPreparation self.old → IsPreparation self.new }
    {
        self.made = self.prepared();
    }

    /// What was prepared, if it was prepared for this offer, for as many versions, with the same names, the same bodies and the same
    /// last text. It takes no memory.
    pub fn fitting(self, k: u8, last: usize, installed: &Installed) -> Option<Prepared>
        ensures { IfSome result (λ prepared. IsPreparation self → IsPreparedOn (trees_of self) k last installed.now prepared) }
    {
        if self.fits(k, last, installed) {
            self.made
        } else {
            None
        }
    }

    /// What is prepared; none where there is no such text, or where preparing fails.
    fn prepared(&self) -> Option<Prepared>
        ensures { HasOwnRows self.now → IfSome result (IsMade self.now) }
    {
        let Some(last) = text_at(&self.texts, self.last) else {
            return None;
        };
        let Some(text) = text_at(&self.texts, self.k as usize) else {
            return None;
        };
        let offered = Offered {
            versions: Versions {
                count: self.count,
                names: &self.names,
                store: &self.store,
                last,
            },
            text,
            rows: self.rows.as_ref(),
        };
        match prepare(self.alloc, offered) {
            Ok(prepared) => Some(prepared),
            Err(_) => None,
        }
    }

    /// Whether it is the preparation of this offer after these versions.
    fn fits(&self, k: u8, last: usize, installed: &Installed) -> bool
        ensures { result ≡ true → Fits self.now k last installed.now }
    {
        if self.k != k {
            return false;
        }
        if self.last != last {
            return false;
        }
        if self.count != installed.count() {
            return false;
        }
        if !same_names(&self.names, installed.names()) {
            return false;
        }
        same_store(&self.store, installed.store())
    }
}

/// The rows that are kept, shared.
fn rows_of(installed: &Installed) -> Option<Arc<Rows, Global>>
    ensures { HasItsRows installed.now → IfSome result (λ rows. AreRowsOver installed.now.store (arc_value rows)) }
{
    match installed.rows() {
        Some(rows) => shared(rows),
        None => None,
    }
}

/// Rows, shared once more; none where that can't be.
fn shared(rows: &Arc<Rows, Global>) -> Option<Arc<Rows, Global>>
    ensures { IfSome result (λ own. arc_value own ≡ arc_value rows.now) }
{
    match Arc::try_clone(rows) {
        Ok(own) => Some(own),
        Err(_) => None,
    }
}

/// The text with a number.
fn text_at(texts: &Arc<Vec<Typed>, Global>, number: usize) -> Option<&Typed>
    ensures { option_copied result ≡ slice_get (arc_value texts.now).items number }
{
    texts.get(number)
}
