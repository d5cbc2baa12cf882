//! Instructions added to code.
ghost use Rattle.std.specs.Prelude.{◌≡◌, map, IfOk, OnOk};
ghost use Rattle.resolved_tree.specs.Nodes.{Table};
ghost use Rattle.bytecode.specs.Seen.{code_of};
ghost use Rattle.expr_gen.specs.Scope.{Adds, code_if};

use bytecode::Instr;
use std::alloc::AllocError;

/// Adds some instructions.
pub fn put(code: &mut Vec<Instr>, made: &[Instr]) -> Result<(), AllocError>
    ensures { OnOk result ((t : Table) → Adds t code.old.items code.new.items (code_of t made.now)) }
{
    code.extend_from_slice(made)
}

/// Adds an instruction where there is one.
pub(crate) fn put_if(code: &mut Vec<Instr>, made: Option<Instr>) -> Result<(), AllocError>
    ensures { OnOk result ((t : Table) → Adds t code.old.items code.new.items (code_if t made)) }
{
    match made {
        Some(instruction) => put(code, &[instruction]),
        None => Ok(()),
    }
}

/// A number of 32 bits. Lack of memory is reported where it is greater.
pub(crate) fn small(n: usize) -> Result<u32, AllocError>
    ensures { IfOk result (λ m. m ≡ n) }
{
    match u32::try_from(n) {
        Ok(n) => Ok(n),
        Err(_) => Err(AllocError),
    }
}
