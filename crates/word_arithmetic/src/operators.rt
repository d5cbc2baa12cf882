ghost use Rattle.std.specs.Prelude.{Ok, pos, true, false, ◌≡◌, ◌%◌, ◌^◌};
ghost use Rattle.c_ints.specs.Kind.{is_signed};
ghost use Rattle.c_ints.specs.declared.operator.BinOp.{BinOp};
ghost use Rattle.bytecode.specs.Words.{integer_word, number_at};
ghost use Rattle.word_arithmetic.specs.WordOperators.{binary_word, unary_word};

use crate::number::{low_bits, signed_number, signed_word, truth};
use crate::{signed, unsigned};
use c_ints::{ArithTrap, BinOp, Kind, UnOp};

/// Converts an integer to a kind: its number there, as a word (C11 6.3.1.3).
#[inline(always)]
pub fn convert(kind: Kind, word: u64) -> u64
    ensures { result ≡ integer_word (number_at kind word) }
{
    match kind {
        Kind::I8 => signed_word(signed_number(Kind::I8, word)),
        Kind::I16 => signed_word(signed_number(Kind::I16, word)),
        Kind::I32 => signed_word(signed_number(Kind::I32, word)),
        _ => low_bits(kind, word),
    }
}

/// What a unary operator gives on an integer, at the kind in which it works.
#[inline(always)]
pub fn unary(op: UnOp, kind: Kind, word: u64) -> Result<u64, ArithTrap>
    ensures { result ≡ unary_word op kind word }
{
    match kind {
        Kind::I8 => signed_unary(op, Kind::I8, word),
        Kind::I16 => signed_unary(op, Kind::I16, word),
        Kind::I32 => signed_unary(op, Kind::I32, word),
        Kind::I64 => signed_unary(op, Kind::I64, word),
        Kind::U8 => unsigned_unary(op, Kind::U8, word),
        Kind::U16 => unsigned_unary(op, Kind::U16, word),
        Kind::U32 => unsigned_unary(op, Kind::U32, word),
        Kind::U64 => unsigned_unary(op, Kind::U64, word),
    }
}

/// A unary operator at a signed kind.
#[inline(always)]
fn signed_unary(op: UnOp, kind: Kind, word: u64) -> Result<u64, ArithTrap>
    requires { is_signed kind ≡ true }
    ensures { result ≡ unary_word op kind word }
{
    let x = signed_number(kind, word);
    match op {
        UnOp::Plus => Ok(signed_word(x)),
        UnOp::Negate => signed::negate(kind, x),
        UnOp::Complement => signed::complement(kind, x),
        UnOp::Not => Ok(truth(x == 0)),
    }
}

/// A unary operator at an unsigned kind.
#[inline(always)]
fn unsigned_unary(op: UnOp, kind: Kind, word: u64) -> Result<u64, ArithTrap>
    requires { is_signed kind ≡ false }
    ensures { result ≡ unary_word op kind word }
{
    let x = low_bits(kind, word);
    match op {
        UnOp::Plus => Ok(x),
        UnOp::Negate => unsigned::negate(kind, x),
        UnOp::Complement => unsigned::complement(kind, x),
        UnOp::Not => Ok(truth(x == 0)),
    }
}

/// What a binary operator gives on two integers, at the kind in which it works. A shift's count is the whole right word.
#[inline(always)]
pub fn binary(op: BinOp, kind: Kind, a: u64, b: u64) -> Result<u64, ArithTrap>
    ensures { result ≡ binary_word op kind a b }
{
    match kind {
        Kind::I8 => signed_binary(op, Kind::I8, a, b),
        Kind::I16 => signed_binary(op, Kind::I16, a, b),
        Kind::I32 => signed_binary(op, Kind::I32, a, b),
        Kind::I64 => signed_binary(op, Kind::I64, a, b),
        Kind::U8 => unsigned_binary(op, Kind::U8, a, b),
        Kind::U16 => unsigned_binary(op, Kind::U16, a, b),
        Kind::U32 => unsigned_binary(op, Kind::U32, a, b),
        Kind::U64 => unsigned_binary(op, Kind::U64, a, b),
    }
}

/// A binary operator at a signed kind.
#[inline(always)]
fn signed_binary(op: BinOp, kind: Kind, a: u64, b: u64) -> Result<u64, ArithTrap>
    requires { is_signed kind ≡ true }
    ensures { result ≡ binary_word op kind a b }
{
    let x = signed_number(kind, a);
    let y = signed_number(kind, b);
    match op {
        BinOp::Add => signed::add(kind, x, y),
        BinOp::Sub => signed::subtract(kind, x, y),
        BinOp::Mul => signed::multiply(kind, x, y),
        BinOp::Div => signed::divide(kind, x, y),
        BinOp::Rem => signed::remainder(kind, x, y),
        BinOp::And => Ok(convert(kind, a & b)),
        BinOp::Or => Ok(convert(kind, a | b)),
        BinOp::Xor => Ok(convert(kind, a ^ b)),
        BinOp::Shl => signed::shift_left(kind, x, b),
        BinOp::Shr => signed::shift_right(kind, x, b),
        BinOp::Lt => Ok(truth(x < y)),
        BinOp::Gt => Ok(truth(y < x)),
        BinOp::Le => Ok(truth(x <= y)),
        BinOp::Ge => Ok(truth(y <= x)),
        BinOp::Eq => Ok(truth(x == y)),
        BinOp::Ne => Ok(truth(x != y)),
    }
}

/// A binary operator at an unsigned kind.
#[inline(always)]
fn unsigned_binary(op: BinOp, kind: Kind, a: u64, b: u64) -> Result<u64, ArithTrap>
    requires { is_signed kind ≡ false }
    ensures { result ≡ binary_word op kind a b }
{
    let x = low_bits(kind, a);
    let y = low_bits(kind, b);
    match op {
        BinOp::Add => unsigned::add(kind, x, y),
        BinOp::Sub => unsigned::subtract(kind, x, y),
        BinOp::Mul => unsigned::multiply(kind, x, y),
        BinOp::Div => unsigned::divide(kind, x, y),
        BinOp::Rem => unsigned::remainder(kind, x, y),
        BinOp::And => Ok(convert(kind, a & b)),
        BinOp::Or => Ok(convert(kind, a | b)),
        BinOp::Xor => Ok(convert(kind, a ^ b)),
        BinOp::Shl => unsigned::shift_left(kind, x, b),
        BinOp::Shr => unsigned::shift_right(kind, x, b),
        BinOp::Lt => Ok(truth(x < y)),
        BinOp::Gt => Ok(truth(y < x)),
        BinOp::Le => Ok(truth(x <= y)),
        BinOp::Ge => Ok(truth(y <= x)),
        BinOp::Eq => Ok(truth(x == y)),
        BinOp::Ne => Ok(truth(x != y)),
    }
}
