//! Operators and conversions.
ghost use Rattle.std.specs.Prelude.{◌≡◌, OnOk};
ghost use Rattle.resolved_tree.specs.Nodes.{Table};
ghost use Rattle.bytecode.specs.Seen.{instruction_of};
ghost use Rattle.tree_code.specs.Code.{keeps_word as keeps_word_of, working_kind as working_kind_of};
ghost use Rattle.expr_gen.specs.Kinds.{combining, combined_kind as combined_kind_of, applying, converting, computing};
ghost use Rattle.expr_gen.specs.Scope.{Adds, code_if};

use crate::emit::{put, put_if};
use crate::kinds::integer_kind;
use bytecode::{Instr, ValueKind};
use c_ints::{BinOp, Kind, UnOp, binary_kind, common};
use std::alloc::AllocError;

/// Whether each number of the second kind has the same word at the first.
fn keeps_word(to: Kind, from: Kind) -> bool
    ensures { result ≡ keeps_word_of to from }
{
    if to.width() >= 64 {
        return true;
    }
    if to.is_signed() == from.is_signed() {
        return from.width() <= to.width();
    }
    to.is_signed() && from.width() < to.width()
}

/// The kind at which a binary operator works.
fn working_kind(op: BinOp, a: Kind, b: Kind) -> Kind
    ensures { result ≡ working_kind_of op a b }
{
    match op {
        BinOp::Shl | BinOp::Shr => a.promoted(),
        _ => common(a, b),
    }
}

/// A binary operator on values of two kinds.
pub(crate) fn combination(op: BinOp, a: ValueKind, b: ValueKind) -> Instr
    ensures { (t : Table) → instruction_of t result ≡ combining op a b }
{
    match a {
        ValueKind::Handle => match op {
            BinOp::Eq => Instr::Same,
            _ => Instr::Different,
        },
        ValueKind::Number(_) | ValueKind::Thread => {
            Instr::Binary(op, working_kind(op, integer_kind(a), integer_kind(b)))
        }
    }
}

/// The kind of a binary operator's value.
pub(crate) fn combined_kind(op: BinOp, a: ValueKind, b: ValueKind) -> ValueKind
    ensures { result ≡ combined_kind_of op a b }
{
    ValueKind::Number(binary_kind(op, integer_kind(a), integer_kind(b)))
}

/// A unary operator on a value of a kind; `+` is none.
pub(crate) fn application(op: UnOp, kind: ValueKind) -> Option<Instr>
    ensures { (t : Table) → code_if t result ≡ applying op kind }
{
    match op {
        UnOp::Plus => None,
        UnOp::Not => Some(Instr::IsZero),
        UnOp::Negate | UnOp::Complement => Some(Instr::Unary(op, integer_kind(kind).promoted())),
    }
}

/// A conversion to the first kind from the second, where it changes words.
pub(crate) fn conversion(to: ValueKind, from: ValueKind) -> Option<Instr>
    ensures { (t : Table) → code_if t result ≡ converting to from }
{
    match (to, from) {
        (ValueKind::Number(to), ValueKind::Number(from)) => {
            if keeps_word(to, from) {
                None
            } else {
                Some(Instr::Convert(to))
            }
        }
        (_, _) => None,
    }
}

/// Adds an operator on a place's value and another, and the conversion back to the place's kind.
pub(crate) fn compute(
    code: &mut Vec<Instr>,
    op: BinOp,
    a: ValueKind,
    b: ValueKind,
) -> Result<(), AllocError>
    ensures { OnOk result ((t : Table) → Adds t code.old.items code.new.items (computing op a b)) }
{
    put(code, &[combination(op, a, b)])?;
    put_if(code, conversion(a, combined_kind(op, a, b)))
}
