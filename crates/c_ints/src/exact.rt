ghost use Rattle.std.specs.Prelude.{IsTrue, pos, unsigned_abs, ◌*ℤ◌, ◌≡◌, ◌^◌, ◌<◌, ◌≤ℤ◌, ◌<ℤ◌, ◌⊎◌, ℤ, ◌≢◌, Ok, Err, Result};
ghost use Rattle.c_ints.specs.Kind.{InRange, is_signed, width};
ghost use Rattle.c_ints.specs.Number.{number, reduced, residue};
ghost use Rattle.c_ints.specs.declared.operator.BinOp.{BinOp};
ghost use Rattle.c_ints.specs.Arithmetic.{is_count as can_shift_by, operate, power, settled, truth as int_truth};

use crate::conversion::reduce;
use crate::int::Int;
use crate::kind::Kind;
use crate::operator::ArithTrap;

/// An exact result at a kind: a signed one must be in range, an unsigned one is reduced.
pub(crate) fn settle(kind: Kind, exact: i128) -> Result<Int, ArithTrap>
    ensures { result ≡ settled kind exact }
{
    if !kind.is_signed() {
        return Ok(wrapped(kind, exact));
    }
    if kind.holds(exact) {
        Ok(Int::new(kind, exact))
    } else {
        Err(ArithTrap::Overflow)
    }
}

/// An exact result converted to a kind.
#[tactic(auto, using(crate::proofs::Reduction::reduced_range))]
pub(crate) fn wrapped(kind: Kind, exact: i128) -> Int
    ensures { result ≡ number kind (reduced kind exact) }
{
    Int::new(kind, reduce(kind, exact))
}

/// The int 1 or 0.
pub(crate) fn truth(holds: bool) -> Int
    ensures { result ≡ int_truth holds }
{
    Int::I32(if holds { 1 } else { 0 })
}

/// The product of two values of a kind. At an unsigned kind a multiple of 2 ^ N may be left out,
/// since the exact product of two values of 64 bits may need 128.
pub(crate) fn product(kind: Kind, x: i128, y: i128) -> i128
    requires left { InRange kind x }
    requires right { InRange kind y }
    ensures settles { settled kind result ≡ settled kind (x *ℤ y) }
    ensures wraps { reduced kind result ≡ reduced kind (x *ℤ y) }
{
    match kind {
        Kind::U64 => (x as u64).wrapping_mul(y as u64) as i128,
        _ => x * y,
    }
}

/// `x / y` at a kind.
pub(crate) fn divide(kind: Kind, x: i128, y: i128) -> Result<Int, ArithTrap>
    requires left { InRange kind x }
    requires right { InRange kind y }
    ensures { result ≡ operate BinOp.Div kind x y }
{
    if y == 0 {
        return Err(ArithTrap::Divide);
    }
    settle(kind, x / y)
}

/// `x % y` at a kind, which has no value where `x / y` has none.
pub(crate) fn remainder(kind: Kind, x: i128, y: i128) -> Result<Int, ArithTrap>
    requires left { InRange kind x }
    requires right { InRange kind y }
    ensures { result ≡ operate BinOp.Rem kind x y }
{
    if y == 0 {
        return Err(ArithTrap::Divide);
    }
    if kind.holds(x / y) {
        Ok(Int::new(kind, x % y))
    } else {
        Err(ArithTrap::Overflow)
    }
}

/// `x << count` at a kind.
pub(crate) fn shift_left(kind: Kind, x: i128, count: i128) -> Result<Int, ArithTrap>
    requires { InRange kind x }
    ensures { result ≡ operate BinOp.Shl kind x count }
{
    if !is_count(kind, count) || x < 0 {
        return Err(ArithTrap::Shift);
    }
    settle(kind, x * power_of_two(count))
}

/// `x >> count` at a kind, rounded down.
pub(crate) fn shift_right(kind: Kind, x: i128, count: i128) -> Result<Int, ArithTrap>
    requires { InRange kind x }
    ensures { result ≡ operate BinOp.Shr kind x count }
{
    if !is_count(kind, count) {
        return Err(ArithTrap::Shift);
    }
    Ok(Int::new(kind, x.div_euclid(power_of_two(count))))
}

/// Whether a number of the kind can be shifted by this count.
fn is_count(kind: Kind, count: i128) -> bool
    ensures { result ≡ can_shift_by kind count }
{
    0 <= count && count < kind.width() as i128
}

/// Two to the power of a count below 64.
fn power_of_two(count: i128) -> i128
    requires least { pos 0 ≤ℤ count }
    requires most { count <ℤ pos 64 }
    ensures value { result ≡ power count }
    ensures positive { pos 0 <ℤ result }
    ensures bound { result ≤ℤ pos (2 ^ 63) }
{
    (1u64 << count as u32) as i128
}

/// The bits of a value in the two's complement of its kind.
pub(crate) fn pattern(kind: Kind, value: i128) -> u64
    ensures { result ≡ unsigned_abs (residue kind value) }
{
    value.rem_euclid(kind.modulus()) as u64
}

/// The integer that has these bits.
pub(crate) fn from_pattern(kind: Kind, bits: u64) -> Int
    ensures { result ≡ number kind (reduced kind (pos bits)) }
{
    wrapped(kind, bits as i128)
}
