ghost use Rattle.resolved_tree.specs.Nodes.{Table};
ghost use Rattle.bytecode.specs.Seen.{instruction_of};
ghost use Rattle.thread_state.specs.Turns.{IsReady, Turns, no_names};

use crate::steps::End;
use crate::{jumps, operators, stack};
use bytecode::Instr;

/// Where a frame is: its variables and its place, and its stack's height there.
#[derive(Clone, Copy)]
pub(crate) struct Spot {
    /// The word of its first variable.
    pub base: usize,
    /// How many variables it has.
    pub room: usize,
    pub place: usize,
    pub height: usize,
}

/// What one instruction comes to.
pub(crate) enum Turn {
    /// The frame goes on at a place, with a height of its stack.
    Goes(usize, usize),
    /// The burst ends before the instruction.
    Ends(End),
}

/// Executes one instruction.
#[inline(always)]
pub(crate) fn execute(instr: &Instr, heights: &[Option<u8>], words: &mut [u64], spot: Spot) -> Turn
    requires { IsReady heights.now words.old (instruction_of no_names instr.now) spot }
    ensures { (t : Table) → Turns heights.now words.old words.new (instruction_of t instr.now) spot result }
{
    match *instr {
        Instr::Constant(kind, word) => stack::constant(heights, words, spot, kind, word),
        Instr::Load(n) => stack::load(heights, words, spot, n),
        Instr::Store(n) => stack::store(heights, words, spot, n),
        Instr::Copy => stack::copy(heights, words, spot),
        Instr::CopyUnder => stack::copy_under(heights, words, spot),
        Instr::Swap => stack::swap(heights, words, spot),
        Instr::Drop => stack::drop_newest(heights, words, spot),
        Instr::Convert(kind) => operators::convert(heights, words, spot, kind),
        Instr::Unary(op, kind) => operators::unary(heights, words, spot, op, kind),
        Instr::Binary(op, kind) => operators::binary(heights, words, spot, op, kind),
        Instr::IsZero => operators::is_zero(heights, words, spot),
        Instr::IsNotZero => operators::is_not_zero(heights, words, spot),
        Instr::Same => operators::same(heights, words, spot),
        Instr::Different => operators::different(heights, words, spot),
        Instr::Jump(distance) => jumps::jump(heights, words, spot, distance),
        Instr::JumpIfZero(distance) => jumps::jump_if_zero(heights, words, spot, distance),
        Instr::JumpUnlessZero(distance) => jumps::jump_unless_zero(heights, words, spot, distance),
        Instr::Halt(_, _) | Instr::Back(_, _, _) | Instr::CheckIn(_, _) => Turn::Ends(End::Rests),
    }
}
