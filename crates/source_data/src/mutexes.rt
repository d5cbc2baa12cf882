//! Mutexes, by who holds them.
ghost use Rattle.std.specs.Prelude.{◌≡◌, ◌∷◌, ℕ, List, not, filter, bytes_eq, IfOk, OnOk};
ghost use Rattle.c_tree.specs.BareDef.{BareDef};
ghost use Rattle.c_semantics.specs.Stops.{InitMutex, Lock, Unlock};
ghost use Rattle.c_semantics.specs.Values.{int_of};
ghost use Rattle.source_model.specs.Worlds.{World, holder_of};
ghost use Rattle.source_data.specs.declared.store.Store.{Store};
ghost use Rattle.resolved_tree.specs.Nodes.{word};
ghost use Rattle.source_data.specs.Stores.{Kept, Performs, with_store, holders_of};
ghost use Rattle.resolved_tree.specs.Trees.{table};
ghost use Rattle.local_evaluation.specs.Work.{newest};

use crate::shared_stops::Did;
use crate::store::{Held, Store};
use c_ints::Int;
use local_evaluation::Value;
use resolved_tree::{Trees, Word};
use run_types::TrapKind;
use std::alloc::AllocError;

/// The slot of the thread that holds a mutex, if one does.
pub fn holder_of(trees: &Trees, holders: &[Held], mutex: Word) -> Option<usize>
    ensures { (store : Store) (w : World) → store.holders.items ≡ holders.now
        → result ≡ holder_of (with_store (table trees.now) store w) (word (table trees.now) mutex) }
{
    let mut left = holders.len();
    while left > 0 {
        left -= 1;
        if trees.same(mutex, holders[left].mutex) {
            return Some(holders[left].slot);
        }
    }
    None
}

/// Makes a mutex free where nobody holds it.
pub fn initialise(
    trees: &Trees,
    store: &Store,
    values: &mut Vec<Value>,
    mutex: Word,
) -> Result<Did, AllocError>
    ensures made { (text : List BareDef) (slot : ℕ) → IfOk result (λ did. Performs (table trees.now) text slot (InitMutex (word (table trees.now) mutex)) store.now values.old.items did store.now values.new.items) }
    ensures kept { IfOk result (λ did. Kept did store.now values.old.items store.now values.new.items) }
{
    match holder_of(trees, store.holders.as_slice(), mutex) {
        None => {
            done(values)?;
            Ok(Did::On)
        }
        Some(_) => Ok(Did::Trap(TrapKind::MutexHeld)),
    }
}

/// Takes a mutex that no other thread holds.
pub fn lock(
    trees: &Trees,
    store: &mut Store,
    slot: usize,
    values: &mut Vec<Value>,
    mutex: Word,
) -> Result<Did, AllocError>
    ensures made { (text : List BareDef) → IfOk result (λ did. Performs (table trees.now) text slot (Lock (word (table trees.now) mutex)) store.old values.old.items did store.new values.new.items) }
    ensures kept { IfOk result (λ did. Kept did store.old values.old.items store.new values.new.items) }
{
    match holder_of(trees, store.holders.as_slice(), mutex) {
        None => {
            store.holders.push(Held { mutex, slot })?;
            done(values)?;
            Ok(Did::On)
        }
        Some(_) => Ok(Did::Trap(TrapKind::Relock)),
    }
}

/// Gives a mutex back.
pub fn unlock(
    trees: &Trees,
    store: &mut Store,
    slot: usize,
    values: &mut Vec<Value>,
    mutex: Word,
) -> Result<Did, AllocError>
    ensures made { (text : List BareDef) → IfOk result (λ did. Performs (table trees.now) text slot (Unlock (word (table trees.now) mutex)) store.old values.old.items did store.new values.new.items) }
    ensures kept { IfOk result (λ did. Kept did store.old values.old.items store.new values.new.items) }
{
    match holder_of(trees, store.holders.as_slice(), mutex) {
        Some(holder) if holder == slot => {
            set_free(trees, &mut store.holders, mutex);
            done(values)?;
            Ok(Did::On)
        }
        _ => Ok(Did::Trap(TrapKind::Unlock)),
    }
}

/// Makes a mutex free.
fn set_free(trees: &Trees, holders: &mut Vec<Held>, mutex: Word)
    ensures { holders_of (table trees.now) holders.new.items
        ≡ filter (λ h. not (bytes_eq (word (table trees.now) mutex) h.mutex)) (holders_of (table trees.now) holders.old.items) }
{
    holders.retain(|held| !trees.same(mutex, held.mutex));
}

/// Adds what a call gives that always succeeds, the `int` 0.
pub fn done(values: &mut Vec<Value>) -> Result<(), AllocError>
    ensures { OnOk result (newest values.new.items ≡ int_of 0 ∷ newest values.old.items) }
{
    values.push(Value::Number(Int::I32(0)))?;
    Ok(())
}
