//! What a `printf` prints.
ghost use Rattle.std.specs.Prelude.{◌≡◌, ℕ, List, IfOk};
ghost use Rattle.c_tree.specs.BareDef.{BareDef};
ghost use Rattle.c_semantics.specs.Stops.{Print};
ghost use Rattle.resolved_tree.specs.Nodes.{word};
ghost use Rattle.source_data.specs.Stores.{Kept, Performs};
ghost use Rattle.resolved_tree.specs.Trees.{table};

use crate::mutexes::done;
use crate::print::print;
use crate::shared_stops::Did;
use crate::store::Store;
use local_evaluation::Value;
use resolved_tree::{Trees, Word};
use std::alloc::AllocError;

/// Prints a format with its arguments, which are the newest values.
pub fn print_values(
    trees: &Trees,
    store: &mut Store,
    values: &mut Vec<Value>,
    format: Word,
    count: usize,
) -> Result<Did, AllocError>
    ensures made { (text : List BareDef) (slot : ℕ) → IfOk result (λ did. Performs (table trees.now) text slot (Print (word (table trees.now) format) count) store.old values.old.items did store.new values.new.items) }
    ensures kept { IfOk result (λ did. Kept did store.old values.old.items store.new values.new.items) }
{
    let at = values.len().saturating_sub(count);
    print(
        &mut store.output,
        trees.text(format),
        &values.as_slice()[at..],
    )?;
    values.truncate(at);
    done(values)?;
    Ok(Did::On)
}
