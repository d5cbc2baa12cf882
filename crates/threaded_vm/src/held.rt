ghost use Rattle.std.specs.Prelude.{◌≡◌, ◌≤◌, [], IfOk, IfErr};
ghost use Rattle.pass_lock.specs.Passes.{fresh_from};
ghost use Rattle.threaded_vm.specs.Locked.{log_of};

use crate::{Note, Opening, Shared};
use dsu_runs::Ahead;
use pass_lock::{Pass, PassLock, Told};
use std::alloc::Global;

/// What the lock holds: the shared value, on the heap. So a turn moves a pointer, and not the engine.
#[derive(Drop)]
pub struct Held<E: Ahead, O: Opening> {
    pub(crate) shared: Box<Shared<E, O>>,
}

impl<E: Ahead, O: Opening> Told for Held<E, O> {
    type What = Note;

    ghost use Rattle.std.specs.Prelude.{[]};
    ghost use Rattle.threaded_vm.specs.Locked.{log_of};

    ghost history = { λ h. log_of h.shared.value };

    ghost notices = { λ _. [] };
}

impl<E: Ahead + Drop, O: Opening> Held<E, O> {
    /// A lock over a value without history, and its passes. Out of memory the value comes back.
    pub(crate) fn lock(
        alloc: Global,
        shared: Shared<E, O>,
        passes: u32,
    ) -> Result<(PassLock<Held<E, O>>, Vec<Pass<Held<E, O>>>), Shared<E, O>>
        requires count { (1 ≤ passes) × (passes ≤ 64) }
        requires empty { log_of shared ≡ [] }
        ensures ok { IfOk result (λ r. (r.0.passes ≡ passes) × (r.1.items ≡ fresh_from r.0.table 0 passes)) }
        ensures err { IfErr result (λ same. same ≡ shared) }
    {
        match Box::new(alloc, shared) {
            Ok(shared) => match PassLock::make(alloc, Held { shared }, passes) {
                Ok(made) => Ok(made),
                Err(fault) => Err(Box::into_inner(fault.value.shared)),
            },
            Err(fault) => Err(fault.value),
        }
    }
}
