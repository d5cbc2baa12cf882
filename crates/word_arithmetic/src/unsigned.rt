ghost use Rattle.std.specs.Prelude.{pos, false, ◌≡◌};
ghost use Rattle.c_ints.specs.Kind.{InRange, is_signed};
ghost use Rattle.c_ints.specs.Arithmetic.{operate, operate_on};
ghost use Rattle.c_ints.specs.declared.operator.BinOp.{BinOp};
ghost use Rattle.c_ints.specs.declared.operator.UnOp.{UnOp};
ghost use Rattle.word_arithmetic.specs.WordOperators.{word_result};

use crate::number::{low_bits, width};
use c_ints::{ArithTrap, Kind};

/// `x + y` at an unsigned kind.
#[inline(always)]
pub(crate) fn add(kind: Kind, x: u64, y: u64) -> Result<u64, ArithTrap>
    requires { is_signed kind ≡ false }
    ensures { result ≡ word_result (operate BinOp.Add kind (pos x) (pos y)) }
{
    Ok(low_bits(kind, x.wrapping_add(y)))
}

/// `x - y` at an unsigned kind.
#[inline(always)]
pub(crate) fn subtract(kind: Kind, x: u64, y: u64) -> Result<u64, ArithTrap>
    requires { is_signed kind ≡ false }
    ensures { result ≡ word_result (operate BinOp.Sub kind (pos x) (pos y)) }
{
    Ok(low_bits(kind, x.wrapping_sub(y)))
}

/// `x * y` at an unsigned kind.
#[inline(always)]
pub(crate) fn multiply(kind: Kind, x: u64, y: u64) -> Result<u64, ArithTrap>
    requires { is_signed kind ≡ false }
    ensures { result ≡ word_result (operate BinOp.Mul kind (pos x) (pos y)) }
{
    Ok(low_bits(kind, x.wrapping_mul(y)))
}

/// `x / y` at an unsigned kind.
#[inline(always)]
pub(crate) fn divide(kind: Kind, x: u64, y: u64) -> Result<u64, ArithTrap>
    requires { is_signed kind ≡ false }
    ensures { result ≡ word_result (operate BinOp.Div kind (pos x) (pos y)) }
{
    if y == 0 {
        return Err(ArithTrap::Divide);
    }
    Ok(low_bits(kind, x / y))
}

/// `x % y` at an unsigned kind.
#[inline(always)]
pub(crate) fn remainder(kind: Kind, x: u64, y: u64) -> Result<u64, ArithTrap>
    requires unsigned { is_signed kind ≡ false }
    requires range { InRange kind (pos x) }
    ensures { result ≡ word_result (operate BinOp.Rem kind (pos x) (pos y)) }
{
    if y == 0 {
        return Err(ArithTrap::Divide);
    }
    Ok(x % y)
}

/// `x << count` at an unsigned kind.
#[inline(always)]
pub(crate) fn shift_left(kind: Kind, x: u64, count: u64) -> Result<u64, ArithTrap>
    requires { is_signed kind ≡ false }
    ensures { result ≡ word_result (operate BinOp.Shl kind (pos x) (pos count)) }
{
    if width(kind) <= count {
        return Err(ArithTrap::Shift);
    }
    Ok(low_bits(kind, x << count))
}

/// `x >> count` at an unsigned kind.
#[inline(always)]
pub(crate) fn shift_right(kind: Kind, x: u64, count: u64) -> Result<u64, ArithTrap>
    requires { is_signed kind ≡ false }
    ensures { result ≡ word_result (operate BinOp.Shr kind (pos x) (pos count)) }
{
    if width(kind) <= count {
        return Err(ArithTrap::Shift);
    }
    Ok(x >> count)
}

/// `-x` at an unsigned kind.
#[inline(always)]
pub(crate) fn negate(kind: Kind, x: u64) -> Result<u64, ArithTrap>
    requires { is_signed kind ≡ false }
    ensures { result ≡ word_result (operate_on UnOp.Negate kind (pos x)) }
{
    Ok(low_bits(kind, 0u64.wrapping_sub(x)))
}

/// `~x` at an unsigned kind.
#[inline(always)]
pub(crate) fn complement(kind: Kind, x: u64) -> Result<u64, ArithTrap>
    requires { is_signed kind ≡ false }
    ensures { result ≡ word_result (operate_on UnOp.Complement kind (pos x)) }
{
    Ok(low_bits(kind, !x))
}
