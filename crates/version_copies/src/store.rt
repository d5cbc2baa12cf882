//! Copies of stores.
ghost use Rattle.std.specs.Prelude.{◌↔◌, IfOk, IsTrue};
ghost use Rattle.version_copies.specs.SameBodies.{HaveSameBodies};

use crate::bodies::{copy_bodies, same_bodies};
use code_store::Store;
use std::alloc::{AllocError, Global};

/// A copy of a store: the same bodies in the same order.
pub fn copy_store(alloc: Global, store: &Store) -> Result<Store, AllocError>
    ensures { IfOk result (HaveSameBodies store.now) }
{
    let copies = copy_bodies(alloc, store.bodies())?;
    let mut copy = Store::new(alloc);
    copy.add_all(copies)?;
    Ok(copy)
}

/// Whether two stores have the same bodies in the same order. It takes no memory.
pub fn same_store(store: &Store, other: &Store) -> bool
    ensures { IsTrue result ↔ HaveSameBodies store.now other.now }
{
    same_bodies(store.bodies(), other.bodies())
}
