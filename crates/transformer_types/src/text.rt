ghost use Rattle.std.specs.Prelude.{◌≡◌, IfOk, flat_map};
ghost use Rattle.patch_faults.specs.TransformFaults.{first, first_transform_fault};
ghost use Rattle.transformer_types.specs.Alone.{faults_at_alone};

use crate::fault::sooner;
use crate::transformer::fault_at;
use c_definitions::Known;
use c_tree::Def;
use c_types::Typed;
use patch_faults::TransformFault;
use std::alloc::{AllocError, Global};

/// The first fault of the transformers among definitions of the newer text.
fn definitions_fault(old: &Known, new: &Known, definitions: &[Def]) -> Option<TransformFault>
    ensures { result ≡ first (flat_map (λ d. faults_at_alone old.now new.now d.place d.kind) definitions.now) }
{
    let mut fault = None;
    for definition in definitions {
        fault = sooner(fault, fault_at(old, new, definition));
    }
    fault
}

/// The fault that is reported of the transformers of `new`, a text that follows `old`; `None` where their types are right. Of
/// several faults it is that with the least place in `new`. It takes time linear in both texts, and fails only when out of
/// memory for its tables of names.
pub fn first_fault(
    alloc: Global,
    old: &Typed,
    new: &Typed,
) -> Result<Option<TransformFault>, AllocError>
    ensures { IfOk result (λ fault. fault ≡ first_transform_fault old.now.definitions new.now.definitions) }
{
    let before = Known::of(alloc, old.program().definitions.as_slice())?;
    let definitions = new.program().definitions.as_slice();
    let after = Known::of(alloc, definitions)?;
    Ok(definitions_fault(&before, &after, definitions))
}
