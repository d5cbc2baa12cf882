//! Constants.
ghost use Rattle.std.specs.Prelude.{◌≡◌};
ghost use Rattle.c_ints.specs.Kind.{InRange};
ghost use Rattle.c_ints.specs.Number.{kind_of as kind_of_number, value_of};
ghost use Rattle.resolved_tree.specs.Nodes.{Table, type_of};
ghost use Rattle.bytecode.specs.Words.{integer_word};
ghost use Rattle.bytecode.specs.Seen.{instruction_of};
ghost use Rattle.tree_code.specs.Code.{constant_word as constant_word_of, number_code, int_code, zero_code};
ghost use Rattle.expr_gen.specs.Kinds.{constant_as as constant_of};

use crate::kinds::{INT, kind_of};
use bytecode::{Instr, ValueKind};
use c_ints::{Int, convert};
use resolved_tree::ValueType;

/// The word of an integer, which is in the range of its kind.
fn word_of(n: Int) -> u64
    ensures value { result ≡ integer_word (value_of n) }
    ensures range { InRange (kind_of_number n) (value_of n) }
{
    n.value().rem_euclid(0x1_0000_0000_0000_0000) as u64
}

/// The word of a constant.
fn constant_word(n: Int) -> u64
    ensures { result ≡ constant_word_of n }
{
    word_of(n)
}

/// A constant.
pub(crate) fn number(n: Int) -> Instr
    ensures { (t : Table) → instruction_of t result ≡ number_code n }
{
    Instr::Constant(ValueKind::Number(n.kind()), constant_word(n))
}

/// A constant as a value of a kind; as a handle it is null.
pub(crate) fn constant_as(kind: ValueKind, n: Int) -> Instr
    ensures { (t : Table) → instruction_of t result ≡ constant_of kind n }
{
    match kind {
        ValueKind::Number(to) => Instr::Constant(kind, word_of(convert(n, to))),
        ValueKind::Handle | ValueKind::Thread => Instr::Constant(kind, 0),
    }
}

/// A small `int`.
pub fn int(n: u8) -> Instr
    ensures { (t : Table) → instruction_of t result ≡ int_code n }
{
    Instr::Constant(INT, n as u64)
}

/// Zero, null, or no thread.
pub fn zero(declared: ValueType) -> Instr
    ensures { (t : Table) → instruction_of t result ≡ zero_code (type_of t declared) }
{
    Instr::Constant(kind_of(declared), 0)
}
