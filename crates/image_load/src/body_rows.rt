//! The numbers of functions by the numbers of their names.
ghost use Rattle.std.specs.Prelude.{◌≡◌, ◌≤◌, Contains, IfErr, IfOk, None, Some, length, replicate, slice_get, ℕ};
ghost use Rattle.resolved_tree.specs.Nodes.{word};
ghost use Rattle.code_image.specs.declared.function.CodeFunction.{CodeFunction as Function};
ghost use Rattle.image_load.specs.declared.fault.LoadFault.TheVariants.{Memory};
ghost use Rattle.image_load.specs.MadeTexts.{HasBodies};
ghost use Rattle.image_load.specs.Numbering.{AreNumbers, callees_of, words_of};

use crate::fault::LoadFault;
use crate::names::Run;
use crate::tables::{number, small};
use code_image::CodeFunction;
use std::alloc::{AllocError, Global};

/// Of the functions from one on, the number of the last with each name.
pub(crate) fn body_row(
    alloc: Global,
    run: &Run,
    functions: &[CodeFunction],
    first: usize,
) -> Result<Vec<Option<u32>>, LoadFault>
    requires numbers { AreNumbers run.now }
    requires within { first ≤ length functions.now }
    ensures row { IfOk result (λ row. HasBodies run.now functions.now first (length functions.now) row.items) }
    ensures fault { let r = run.now in IfErr result (λ fault. ((k : ℕ) (f : Function) → first ≤ k → slice_get functions.now k ≡ Some f
        → Contains (callees_of r) (word (words_of r) f.name)) → fault ≡ Memory) }
{
    let mut row = no_bodies(alloc, run.callees.len())?;
    for place in first..functions.len() {
        let name = number(run.functions, run.trees.text(functions[place].name))?;
        let body = small(place)?;
        row[name as usize] = Some(body);
    }
    Ok(row)
}

/// No functions under so many names.
fn no_bodies(alloc: Global, names: usize) -> Result<Vec<Option<u32>>, AllocError>
    ensures { IfOk result (λ row. row.items ≡ replicate names None) }
{
    vec![in alloc; None; names]
}
