ghost use Rattle.std.specs.Prelude.{IfOk, Ok, max, min, ◌≡◌};
ghost use Rattle.c_ints.specs.Number.{kind_of};
ghost use Rattle.c_ints.specs.Kind.{InRange};
ghost use Rattle.c_ints.specs.Arithmetic.{EachBit, IsDivision, balanced_value, binary_kind, binary_value, differs, operate as operator_value, unary_kind, unary_value};
ghost use Rattle.c_ints.specs.declared.int.Int.{Int};
ghost use Rattle.c_ints.specs.declared.operator.BinOp.{BinOp};

use crate::conversion::{common, reduce};
use crate::exact::{
    divide, from_pattern, pattern, product, remainder, settle, shift_left, shift_right, truth,
    wrapped,
};
use crate::int::Int;
use crate::kind::Kind;
use crate::operator::{ArithTrap, BinOp, UnOp};

/// What a binary operator gives on two integers of any kinds. It promotes them and converts them to
/// their common kind itself; a shift has the kind of its promoted left operand.
pub fn binary(op: BinOp, a: Int, b: Int) -> Result<Int, ArithTrap>
    ensures value { result ≡ binary_value op a b }
    ensures kind { IfOk result (λ z. kind_of z ≡ binary_kind op (kind_of a) (kind_of b)) }

    // `&`, `|` and `^` work bit by bit.
    ensures and { op ≡ BinOp.And → IfOk result (EachBit min a b) }
    ensures or { op ≡ BinOp.Or → IfOk result (EachBit max a b) }
    ensures xor { op ≡ BinOp.Xor → IfOk result (EachBit differs a b) }

    // `/` and `%` belong together.
    ensures division { (q : Int) → op ≡ BinOp.Rem → binary_value BinOp.Div a b ≡ Ok q → IfOk result (λ r. IsDivision a b q r) }
{
    match op {
        BinOp::Shl => shift_left(a.kind().promoted(), a.value(), b.value()),
        BinOp::Shr => shift_right(a.kind().promoted(), a.value(), b.value()),
        _ => balanced(op, a, b),
    }
}

/// A binary operator on two integers at their common kind.
fn balanced(op: BinOp, a: Int, b: Int) -> Result<Int, ArithTrap>
    ensures { result ≡ balanced_value op a b }
{
    let kind = common(a.kind(), b.kind());
    operate(op, kind, reduce(kind, a.value()), reduce(kind, b.value()))
}

/// What a unary operator gives on an integer, which it promotes.
pub fn unary(op: UnOp, a: Int) -> Result<Int, ArithTrap>
    ensures value { result ≡ unary_value op a }
    ensures kind { IfOk result (λ z. kind_of z ≡ unary_kind op (kind_of a)) }
{
    let kind = a.kind().promoted();
    let x = a.value();
    match op {
        UnOp::Plus => Ok(Int::new(kind, x)),
        UnOp::Negate => settle(kind, -x),
        UnOp::Complement => Ok(wrapped(kind, -(x + 1))),
        UnOp::Not => Ok(truth(x == 0)),
    }
}

/// An operator on two values at one kind.
fn operate(op: BinOp, kind: Kind, x: i128, y: i128) -> Result<Int, ArithTrap>
    requires left { InRange kind x }
    requires right { InRange kind y }
    ensures { result ≡ operator_value op kind x y }
{
    match op {
        BinOp::Add => settle(kind, x + y),
        BinOp::Sub => settle(kind, x - y),
        BinOp::Mul => settle(kind, product(kind, x, y)),
        BinOp::Div => divide(kind, x, y),
        BinOp::Rem => remainder(kind, x, y),
        BinOp::And => Ok(from_pattern(kind, pattern(kind, x) & pattern(kind, y))),
        BinOp::Or => Ok(from_pattern(kind, pattern(kind, x) | pattern(kind, y))),
        BinOp::Xor => Ok(from_pattern(kind, pattern(kind, x) ^ pattern(kind, y))),
        BinOp::Shl => shift_left(kind, x, y),
        BinOp::Shr => shift_right(kind, x, y),
        BinOp::Lt => Ok(truth(x < y)),
        BinOp::Gt => Ok(truth(x > y)),
        BinOp::Le => Ok(truth(x <= y)),
        BinOp::Ge => Ok(truth(x >= y)),
        BinOp::Eq => Ok(truth(x == y)),
        BinOp::Ne => Ok(truth(x != y)),
    }
}
