//! Code that grows at its beginning.
ghost use Rattle.std.specs.Prelude.{◌≡◌, ◌<◌, ◌-◌, length, IfOk, OnOk, vec_len};
ghost use Rattle.resolved_tree.specs.Nodes.{Table};
ghost use Rattle.bytecode.specs.Seen.{code_of};
ghost use Rattle.bytecode_gen.specs.Tails.{Precedes, LeadsBack};

use bytecode::Instr;
use expr_gen::Variable;
use std::alloc::AllocError;

/// Puts some instructions in front of a tail, which has its last instruction first.
pub(crate) fn precede(tail: &mut Vec<Instr>, made: &[Instr]) -> Result<(), AllocError>
    ensures { OnOk result ((t : Table) → Precedes t tail.old.items tail.new.items (code_of t made.now)) }
{
    let mut left = made.len();
    while left > 0 {
        left -= 1;
        tail.push(made[left])?;
    }
    Ok(())
}

/// How many instructions are between the beginning of a tail and the place from which it had so many. Lack of memory is
/// reported where there are 2^32 or more.
pub(crate) fn distance(tail: &Vec<Instr>, from: usize) -> Result<u32, AllocError>
    ensures { IfOk result (λ n. n ≡ length tail.now.items - from) }
{
    match u32::try_from(tail.len().saturating_sub(from)) {
        Ok(n) => Ok(n),
        Err(_) => Err(AllocError),
    }
}

/// How many variables are in scope. Lack of memory is reported where there are 2^32 or more.
pub(crate) fn count(variables: &[Variable]) -> Result<u32, AllocError>
    ensures { IfOk result (λ n. n ≡ length variables.now) }
{
    match u32::try_from(variables.len()) {
        Ok(n) => Ok(n),
        Err(_) => Err(AllocError),
    }
}

/// Makes the back edge with a point, behind which a tail had so many instructions, one to the beginning of the tail, where so
/// many variables are in scope.
pub(crate) fn lead_back(
    tail: &mut Vec<Instr>,
    after: usize,
    point: u32,
    variables: u32,
) -> Result<(), AllocError>
    requires { after < vec_len tail.old }
    ensures { OnOk result ((t : Table) → LeadsBack t tail.old.items tail.new.items after point variables) }
{
    let over = distance(tail, after + 1)?;
    tail[after] = Instr::Back(over, point, variables);
    Ok(())
}
