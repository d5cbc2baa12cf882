ghost use Rattle.std.specs.Prelude.{Ok, ◌≡◌};
ghost use Rattle.c_ints.specs.Kind.{InRange};
ghost use Rattle.c_ints.specs.Number.{kind_of};
ghost use Rattle.c_ints.specs.Arithmetic.{as_binary, binary_kind, binary_value, binary_wrapped, operate_wrapped, unary_kind, unary_value, unary_wrapped};
ghost use Rattle.c_ints.specs.declared.int.Int.{Int};

use crate::conversion::{common, promote, reduce};
use crate::exact::{from_pattern, pattern, product, truth, wrapped};
use crate::int::Int;
use crate::kind::Kind;
use crate::operator::{SafeOp, UnOp};

/// What a binary operator gives where a signed result out of range is converted to its kind in place
/// of a trap.
pub fn binary_wrap(op: SafeOp, a: Int, b: Int) -> Int
    ensures value { result ≡ binary_wrapped op a b }
    ensures kind { kind_of result ≡ binary_kind (as_binary op) (kind_of a) (kind_of b) }

    // Where `binary` has a value it is the same.
    ensures agrees { (z : Int) → binary_value (as_binary op) a b ≡ Ok z → result ≡ z }
{
    let kind = common(a.kind(), b.kind());
    operate(op, kind, reduce(kind, a.value()), reduce(kind, b.value()))
}

/// What a unary operator gives where the opposite of the least value of a kind is itself in place of
/// a trap.
pub fn unary_wrap(op: UnOp, a: Int) -> Int
    ensures value { result ≡ unary_wrapped op a }
    ensures kind { kind_of result ≡ unary_kind op (kind_of a) }

    // Where `unary` has a value it is the same.
    ensures agrees { (z : Int) → unary_value op a ≡ Ok z → result ≡ z }
{
    let kind = a.kind().promoted();
    let x = a.value();
    match op {
        UnOp::Plus => promote(a),
        UnOp::Negate => wrapped(kind, -x),
        UnOp::Complement => wrapped(kind, -(x + 1)),
        UnOp::Not => truth(x == 0),
    }
}

/// An operator on two values at one kind.
fn operate(op: SafeOp, kind: Kind, x: i128, y: i128) -> Int
    requires left { InRange kind x }
    requires right { InRange kind y }
    ensures { result ≡ operate_wrapped op kind x y }
{
    match op {
        SafeOp::Add => wrapped(kind, x + y),
        SafeOp::Sub => wrapped(kind, x - y),
        SafeOp::Mul => wrapped(kind, product(kind, x, y)),
        SafeOp::And => from_pattern(kind, pattern(kind, x) & pattern(kind, y)),
        SafeOp::Or => from_pattern(kind, pattern(kind, x) | pattern(kind, y)),
        SafeOp::Xor => from_pattern(kind, pattern(kind, x) ^ pattern(kind, y)),
        SafeOp::Lt => truth(x < y),
        SafeOp::Gt => truth(x > y),
        SafeOp::Le => truth(x <= y),
        SafeOp::Ge => truth(x >= y),
        SafeOp::Eq => truth(x == y),
        SafeOp::Ne => truth(x != y),
    }
}
