//! Jumps over code that is added after them.
ghost use Rattle.std.specs.Prelude.{◌≡◌, ◌∷◌, [], ◌++◌, ◌<◌, length, vec_len, IfOk, OnOk};
ghost use Rattle.resolved_tree.specs.Nodes.{Table};
ghost use Rattle.bytecode.specs.Instructions.{Instruction, Jump};
ghost use Rattle.bytecode.specs.Seen.{instruction_of, code_of};
ghost use Rattle.tree_code.specs.Code.{Code};
ghost use Rattle.expr_gen.specs.Kinds.{leaping};
ghost use Rattle.expr_gen.specs.Scope.{Adds};

use crate::emit::{put, small};
use bytecode::Instr;
use std::alloc::AllocError;

/// When a jump is taken.
#[derive(Clone, Copy)]
pub(crate) enum Leap {
    Always,
    /// Where the newest word is 0.
    IfZero,
    /// Where it isn't 0.
    UnlessZero,
}

/// A jump over so many instructions.
fn jumping(when: Leap, over: u32) -> Instr
    ensures { (t : Table) → instruction_of t result ≡ leaping when over }
{
    match when {
        Leap::Always => Instr::Jump(over),
        Leap::IfZero => Instr::JumpIfZero(over),
        Leap::UnlessZero => Instr::JumpUnlessZero(over),
    }
}

/// Adds an instruction in whose stead a jump will stand, and gives its place.
pub(crate) fn hole(code: &mut Vec<Instr>) -> Result<usize, AllocError>
    ensures place { IfOk result (λ place. place ≡ vec_len code.old) }
    ensures code { OnOk result ((t : Table) → Adds t code.old.items code.new.items (Jump 0 ∷ [])) }
{
    let place = code.len();
    put(code, &[Instr::Jump(0)])?;
    Ok(place)
}

/// Makes the instruction at a place a jump to the end of the code. Lack of memory is reported where that is 2^32 or more
/// instructions away.
pub(crate) fn lead(code: &mut Vec<Instr>, place: usize, when: Leap) -> Result<(), AllocError>
    requires { place < vec_len code.old }
    ensures { OnOk result ((t : Table) (before inside : Code) (i : Instruction)
        → code_of t code.old.items ≡ before ++ i ∷ inside → length before ≡ place
        → code_of t code.new.items ≡ before ++ leaping when (length inside) ∷ inside) }
{
    let over = small(code.len() - place - 1)?;
    code[place] = jumping(when, over);
    Ok(())
}
