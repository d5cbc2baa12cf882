//! Places by name.
ghost use Rattle.std.specs.Prelude.{◌≡◌, None, Some, bytes_eq, if◌then◌else◌, OnOk};
ghost use Rattle.c_tree.specs.BareExpr.{Bytes};
ghost use Rattle.source_programs.specs.Places.{place_in};

use indexmap::IndexMap;
use std::alloc::{AllocError, Global};

/// The places of names in a list. A look finds one without going through the list.
#[derive(Drop)]
pub struct Places {
    by_name: IndexMap<String, usize>,
}

impl Places {
    /// No places. It takes no memory yet.
    pub fn new(alloc: Global) -> Places
        ensures { (name : Bytes) → place_in result name ≡ None }
    {
        Places {
            by_name: IndexMap::new(alloc),
        }
    }

    /// The place of a name.
    pub fn find(&self, name: &str) -> Option<usize>
        ensures { result ≡ place_in self.now name.now }
    {
        self.by_name.get(name).copied()
    }

    /// Gives a name a place; the one that it had goes.
    pub fn put(&mut self, name: &str, place: usize) -> Result<(), AllocError>
        ensures { OnOk result ((other : Bytes) → place_in self.new other
            ≡ (if bytes_eq other name.now then Some place else place_in self.old other)) }
    {
        let owned = String::from_str(*self.by_name.allocator(), name)?;
        self.by_name.insert(owned, place)?;
        Ok(())
    }
}
