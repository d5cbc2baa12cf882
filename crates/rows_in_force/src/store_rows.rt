//! The rows over a store.
ghost use Rattle.std.specs.Prelude.{IfOk};
ghost use Rattle.rows_in_force.specs.StoreRows.{AreRowsOver};

use checkin_rows::{Rows, rows_of};
use code_store::Store;
use contextual_effects::solve;
use std::alloc::{AllocError, Global};

/// The rows over all bodies of a store. It has few enough check-ins for their rows to have numbers.
pub fn rows(alloc: Global, store: &Store) -> Result<Rows, AllocError>
    ensures { IfOk result (AreRowsOver store.now) }
{
    let flow = store.flow(alloc)?;
    let effects = solve(alloc, &flow)?;
    rows_of(alloc, &flow, &effects)
}
