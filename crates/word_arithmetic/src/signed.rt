ghost use Rattle.std.specs.Prelude.{pos, true, ◌<◌, ◌≡◌};
ghost use Rattle.c_ints.specs.Kind.{InRange, greatest as greatest_number, is_signed};
ghost use Rattle.c_ints.specs.Arithmetic.{operate, operate_on, settled};
ghost use Rattle.c_ints.specs.declared.operator.BinOp.{BinOp};
ghost use Rattle.c_ints.specs.declared.operator.UnOp.{UnOp};
ghost use Rattle.word_arithmetic.specs.WordOperators.{word_result};

use crate::number::{holds, signed_word, width};
use c_ints::{ArithTrap, Kind};

/// An exact result at a signed kind.
#[inline(always)]
fn settle(kind: Kind, exact: i64) -> Result<u64, ArithTrap>
    requires { is_signed kind ≡ true }
    ensures { result ≡ word_result (settled kind exact) }
{
    if holds(kind, exact) {
        Ok(signed_word(exact))
    } else {
        Err(ArithTrap::Overflow)
    }
}

/// `x + y` at a signed kind.
#[inline(always)]
pub(crate) fn add(kind: Kind, x: i64, y: i64) -> Result<u64, ArithTrap>
    requires { is_signed kind ≡ true }
    ensures { result ≡ word_result (operate BinOp.Add kind x y) }
{
    match x.checked_add(y) {
        Some(exact) => settle(kind, exact),
        None => Err(ArithTrap::Overflow),
    }
}

/// `x - y` at a signed kind.
#[inline(always)]
pub(crate) fn subtract(kind: Kind, x: i64, y: i64) -> Result<u64, ArithTrap>
    requires { is_signed kind ≡ true }
    ensures { result ≡ word_result (operate BinOp.Sub kind x y) }
{
    match x.checked_sub(y) {
        Some(exact) => settle(kind, exact),
        None => Err(ArithTrap::Overflow),
    }
}

/// `x * y` at a signed kind.
#[inline(always)]
pub(crate) fn multiply(kind: Kind, x: i64, y: i64) -> Result<u64, ArithTrap>
    requires { is_signed kind ≡ true }
    ensures { result ≡ word_result (operate BinOp.Mul kind x y) }
{
    match x.checked_mul(y) {
        Some(exact) => settle(kind, exact),
        None => Err(ArithTrap::Overflow),
    }
}

/// `x / y` at a signed kind.
#[inline(always)]
pub(crate) fn divide(kind: Kind, x: i64, y: i64) -> Result<u64, ArithTrap>
    requires { is_signed kind ≡ true }
    ensures { result ≡ word_result (operate BinOp.Div kind x y) }
{
    if y == 0 {
        return Err(ArithTrap::Divide);
    }
    match x.checked_div(y) {
        Some(quotient) => settle(kind, quotient),
        None => Err(ArithTrap::Overflow),
    }
}

/// `x % y` at a signed kind, which has no value where `x / y` has none.
#[inline(always)]
pub(crate) fn remainder(kind: Kind, x: i64, y: i64) -> Result<u64, ArithTrap>
    requires { is_signed kind ≡ true }
    ensures { result ≡ word_result (operate BinOp.Rem kind x y) }
{
    if y == 0 {
        return Err(ArithTrap::Divide);
    }
    match x.checked_div(y) {
        Some(quotient) => {
            if holds(kind, quotient) {
                Ok(signed_word(x.wrapping_rem(y)))
            } else {
                Err(ArithTrap::Overflow)
            }
        }
        None => Err(ArithTrap::Overflow),
    }
}

/// `x << count` at a signed kind: a trap where a bit would get into the sign or out of the kind.
#[inline(always)]
pub(crate) fn shift_left(kind: Kind, x: i64, count: u64) -> Result<u64, ArithTrap>
    requires { is_signed kind ≡ true }
    ensures { result ≡ word_result (operate BinOp.Shl kind x (pos count)) }
{
    if x < 0 || width(kind) <= count {
        return Err(ArithTrap::Shift);
    }
    if greatest(kind) >> count < x as u64 {
        return Err(ArithTrap::Overflow);
    }
    Ok((x as u64) << count)
}

/// `x >> count` at a signed kind, rounded down.
#[inline(always)]
pub(crate) fn shift_right(kind: Kind, x: i64, count: u64) -> Result<u64, ArithTrap>
    requires { is_signed kind ≡ true }
    ensures { result ≡ word_result (operate BinOp.Shr kind x (pos count)) }
{
    if width(kind) <= count {
        return Err(ArithTrap::Shift);
    }
    Ok(signed_word(x >> count))
}

/// The greatest number of a signed kind.
#[inline(always)]
fn greatest(kind: Kind) -> u64
    requires { is_signed kind ≡ true }
    ensures { pos result ≡ greatest_number kind }
{
    match kind {
        Kind::I8 => 0x7f,
        Kind::I16 => 0x7fff,
        Kind::I32 => 0x7fff_ffff,
        _ => 0x7fff_ffff_ffff_ffff,
    }
}

/// `-x` at a signed kind.
#[inline(always)]
pub(crate) fn negate(kind: Kind, x: i64) -> Result<u64, ArithTrap>
    requires { is_signed kind ≡ true }
    ensures { result ≡ word_result (operate_on UnOp.Negate kind x) }
{
    match x.checked_neg() {
        Some(exact) => settle(kind, exact),
        None => Err(ArithTrap::Overflow),
    }
}

/// `~x` at a signed kind.
#[inline(always)]
pub(crate) fn complement(kind: Kind, x: i64) -> Result<u64, ArithTrap>
    requires signed { is_signed kind ≡ true }
    requires range { InRange kind x }
    ensures { result ≡ word_result (operate_on UnOp.Complement kind x) }
{
    Ok(signed_word(!x))
}
