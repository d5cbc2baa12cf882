//! Stops that read or change what threads share.
ghost use Rattle.std.specs.Prelude.{◌≡◌, false, IfOk};
ghost use Rattle.local_evaluation.specs.Pieces.{stop_of};
ghost use Rattle.source_programs.specs.Programs.{ArePrograms, current_of, table_of};
ghost use Rattle.source_data.specs.Stores.{Kept, Performs, is_threads};

use crate::cells::{read_element, read_global, write_element, write_global};
use crate::mutexes::{initialise, lock, unlock};
use crate::objects::{allocate, read_field, release, write_field};
use crate::output::print_values;
use crate::store::Store;
use local_evaluation::{Stop, Value};
use run_types::TrapKind;
use source_programs::Programs;
use std::alloc::AllocError;

/// What a stop comes to.
#[derive(Clone, Copy)]
pub enum Did {
    /// The thread goes on.
    On,
    /// The stop traps; nothing has changed.
    Trap(TrapKind),
    /// The stop can't be made; nothing has changed.
    Nothing,
}

/// Makes a stop of the thread in a slot that changes no thread; its use was found to be right, and it needn't wait.
pub fn perform(
    program: &Programs,
    store: &mut Store,
    slot: usize,
    values: &mut Vec<Value>,
    stop: Stop,
) -> Result<Did, AllocError>
    ensures made { let t = table_of program.now in ArePrograms program.now → is_threads (stop_of t stop) ≡ false
        → IfOk result (λ did. Performs t (current_of program.now) slot (stop_of t stop) store.old values.old.items did store.new values.new.items) }
    ensures kept { IfOk result (λ did. Kept did store.old values.old.items store.new values.new.items) }
{
    let trees = program.trees();
    match stop {
        Stop::ReadGlobal(name) => read_global(trees, store, values, name),
        Stop::WriteGlobal(name) => write_global(trees, store, values, name),
        Stop::ReadElement(name) => read_element(trees, store, values, name),
        Stop::WriteElement(name) => write_element(trees, store, values, name),
        Stop::ReadField(_, name) => read_field(trees, store, values, name),
        Stop::WriteField(_, name) => write_field(trees, store, values, name),
        Stop::New(tag) => allocate(program, store, values, tag),
        Stop::Free(_) => release(store, values),
        Stop::Print(format, count) => print_values(trees, store, values, format, count),
        Stop::InitMutex(name) => initialise(trees, store, values, name),
        Stop::Lock(name) => lock(trees, store, slot, values, name),
        Stop::Unlock(name) => unlock(trees, store, slot, values, name),
        Stop::Back | Stop::Update => Ok(Did::On),
        Stop::Spawn(_) | Stop::Join | Stop::Call(_, _) | Stop::Return | Stop::Begin | Stop::End =>
            Ok(Did::Nothing),
    }
}
