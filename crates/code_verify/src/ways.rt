//! Where control goes from an instruction.
ghost use Rattle.std.specs.Prelude.{◌≡◌, ℕ, option_map};
ghost use Rattle.resolved_tree.specs.Nodes.{Table};
ghost use Rattle.local_evaluation.specs.Pieces.{stop_of};
ghost use Rattle.bytecode.specs.Instructions.{Halt};
ghost use Rattle.bytecode.specs.Seen.{instruction_of};
ghost use Rattle.code_kinds.specs.Shapes.{leads_to};
ghost use Rattle.code_verify.specs.Ways.{ways_of, edge_of, edge_in};

use bytecode::Instr;
use local_evaluation::Stop;

/// Where control goes from an instruction. A number is a distance.
#[derive(Clone, Copy)]
pub(crate) enum Ways {
    /// To the next instruction.
    On,
    /// So many instructions further.
    Over(u32),
    /// To either.
    Either(u32),
    /// So many instructions back.
    Back(u32),
    /// Nowhere.
    Ends,
}

/// Where control goes from a stop.
fn from_stop(stop: Stop) -> Ways
    ensures { (t : Table) (n p : ℕ) → leads_to p (Halt (stop_of t stop) n) ≡ ways_of p result }
{
    match stop {
        Stop::Return => Ways::Ends,
        Stop::ReadGlobal(_)
        | Stop::WriteGlobal(_)
        | Stop::ReadElement(_)
        | Stop::WriteElement(_)
        | Stop::ReadField(_, _)
        | Stop::WriteField(_, _)
        | Stop::New(_)
        | Stop::Free(_)
        | Stop::Print(_, _)
        | Stop::InitMutex(_)
        | Stop::Lock(_)
        | Stop::Unlock(_)
        | Stop::Spawn(_)
        | Stop::Join
        | Stop::Call(_, _)
        | Stop::Back
        | Stop::Begin
        | Stop::End
        | Stop::Update => Ways::On,
    }
}

/// Where control goes from an instruction.
pub(crate) fn ways_from(instr: Instr) -> Ways
    ensures { (t : Table) (p : ℕ) → leads_to p (instruction_of t instr) ≡ ways_of p result }
{
    match instr {
        Instr::Jump(over) => Ways::Over(over),
        Instr::JumpIfZero(over) => Ways::Either(over),
        Instr::JumpUnlessZero(over) => Ways::Either(over),
        Instr::Back(over, _, _) => Ways::Back(over),
        Instr::Halt(stop, _) => from_stop(stop),
        Instr::Constant(_, _)
        | Instr::Load(_)
        | Instr::Store(_)
        | Instr::Copy
        | Instr::CopyUnder
        | Instr::Swap
        | Instr::Drop
        | Instr::Convert(_)
        | Instr::Unary(_, _)
        | Instr::Binary(_, _)
        | Instr::IsZero
        | Instr::IsNotZero
        | Instr::Same
        | Instr::Different
        | Instr::CheckIn(_, _) => Ways::On,
    }
}

/// How far a back edge leads, and how many variables it keeps; none where an instruction is none.
pub(crate) fn edge(instr: Instr) -> Option<(u32, u32)>
    ensures { (t : Table) → option_map edge_of result ≡ edge_in (instruction_of t instr) }
{
    match instr {
        Instr::Back(over, _, variables) => Some((over, variables)),
        Instr::Constant(_, _)
        | Instr::Load(_)
        | Instr::Store(_)
        | Instr::Copy
        | Instr::CopyUnder
        | Instr::Swap
        | Instr::Drop
        | Instr::Convert(_)
        | Instr::Unary(_, _)
        | Instr::Binary(_, _)
        | Instr::IsZero
        | Instr::IsNotZero
        | Instr::Same
        | Instr::Different
        | Instr::Jump(_)
        | Instr::JumpIfZero(_)
        | Instr::JumpUnlessZero(_)
        | Instr::Halt(_, _)
        | Instr::CheckIn(_, _) => None,
    }
}
