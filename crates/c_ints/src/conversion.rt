ghost use Rattle.std.specs.Prelude.{pos, ℤ, ◌^◌, ◌≡◌, ◌≤ℤ◌};
ghost use Rattle.c_ints.specs.Kind.{InRange, common_kind, common_table, promoted_table, signed_if_wider as signed_kind_if_wider, width, wider as wider_kind};
ghost use Rattle.c_ints.specs.Arithmetic.{binary_kind as binary_kind_of, unary_kind as unary_kind_of};
ghost use Rattle.c_ints.specs.Number.{IsCongruent, converted, kind_of, promoted_number, reduced, value_of};

use crate::int::Int;
use crate::kind::Kind;
use crate::operator::{BinOp, UnOp};

/// What a value becomes at a kind.
pub(crate) fn reduce(kind: Kind, value: i128) -> i128
    ensures { result ≡ reduced kind value }
{
    if kind.holds(value) {
        return value;
    }
    let residue = value.rem_euclid(kind.modulus());
    if residue <= kind.greatest() {
        residue
    } else {
        residue - kind.modulus()
    }
}

/// Converts an integer to a kind (C11 6.3.1.3): a value that the kind holds stays, another one loses
/// its high bits.
#[tactic(auto, using(crate::proofs::Reduction::reduced_range))]
pub fn convert(a: Int, to: Kind) -> Int
    ensures value { result ≡ converted a to }
    ensures kind { kind_of result ≡ to }
    ensures range { InRange to (value_of result) }
    ensures kept { InRange to (value_of a) → value_of result ≡ value_of a }
    ensures idempotent { converted result to ≡ result }

    // It is the one number of the kind that differs from the value by a multiple of 2 ^ N.
    ensures congruent { IsCongruent (pos (2 ^ width to)) (value_of a) (value_of result) }
    ensures only { (z : ℤ) → InRange to z → IsCongruent (pos (2 ^ width to)) (value_of a) z → z ≡ value_of result }
{
    Int::new(to, reduce(to, a.value()))
}

/// Promotes an integer (C11 6.3.1.1): a kind narrower than `int` becomes `int`.
pub fn promote(a: Int) -> Int
    ensures value { result ≡ promoted_number a }
    ensures kind { kind_of result ≡ promoted_table (kind_of a) }
    ensures kept { value_of result ≡ value_of a }
{
    Int::new(a.kind().promoted(), a.value())
}

/// The kind at which two operands meet (the usual arithmetic conversions, C11 6.3.1.8).
pub fn common(a: Kind, b: Kind) -> Kind
    ensures rules { result ≡ common_kind a b }
    ensures table { result ≡ common_table a b }
{
    let a = a.promoted();
    let b = b.promoted();
    match (a.is_signed(), b.is_signed()) {
        (true, false) => signed_if_wider(a, b),
        (false, true) => signed_if_wider(b, a),
        (true, true) | (false, false) => wider(a, b),
    }
}

/// The kind of a binary operator's value, by the kinds of its operands (C11 6.5.5 to 6.5.12).
pub fn binary_kind(op: BinOp, a: Kind, b: Kind) -> Kind
    ensures { result ≡ binary_kind_of op a b }
{
    match op {
        BinOp::Lt | BinOp::Gt | BinOp::Le | BinOp::Ge | BinOp::Eq | BinOp::Ne => Kind::I32,
        BinOp::Shl | BinOp::Shr => a.promoted(),
        _ => common(a, b),
    }
}

/// The kind of a unary operator's value, by the kind of its operand (C11 6.5.3.3).
pub fn unary_kind(op: UnOp, a: Kind) -> Kind
    ensures { result ≡ unary_kind_of op a }
{
    match op {
        UnOp::Not => Kind::I32,
        UnOp::Plus | UnOp::Negate | UnOp::Complement => a.promoted(),
    }
}

/// Of two kinds the wider one, the first where they are equally wide.
fn wider(a: Kind, b: Kind) -> Kind
    ensures { result ≡ wider_kind a b }
{
    if b.width() <= a.width() { a } else { b }
}

/// The signed kind where it is wider, else the unsigned one.
fn signed_if_wider(signed: Kind, unsigned: Kind) -> Kind
    ensures { result ≡ signed_kind_if_wider signed unsigned }
{
    if unsigned.width() < signed.width() {
        signed
    } else {
        unsigned
    }
}
