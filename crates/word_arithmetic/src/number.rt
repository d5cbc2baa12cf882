ghost use Rattle.std.specs.Prelude.{Ok, pos, true, ◌≡◌, ◌%◌, ◌^◌};
ghost use Rattle.c_ints.specs.Arithmetic.{truth as truth_of};
ghost use Rattle.word_arithmetic.specs.WordOperators.{word_result};
ghost use Rattle.c_ints.specs.Kind.{InRange, holds as holds_value, is_signed, width as width_of};
ghost use Rattle.bytecode.specs.Words.{integer_word, number_at};

use c_ints::Kind;

/// The number of a signed kind that a word's low bits stand for.
#[inline(always)]
pub(crate) fn signed_number(kind: Kind, word: u64) -> i64
    requires { is_signed kind ≡ true }
    ensures value { result ≡ number_at kind word }
    ensures range { InRange kind result }
{
    match kind {
        Kind::I8 => ((word & 0xff) as u8).cast_signed() as i64,
        Kind::I16 => ((word & 0xffff) as u16).cast_signed() as i64,
        Kind::I32 => ((word & 0xffff_ffff) as u32).cast_signed() as i64,
        _ => word.cast_signed(),
    }
}

/// The word of a signed number.
#[inline(always)]
pub(crate) fn signed_word(number: i64) -> u64
    ensures { result ≡ integer_word number }
{
    number.cast_unsigned()
}

/// The low bits of a word, as many as a kind has.
#[inline(always)]
pub(crate) fn low_bits(kind: Kind, word: u64) -> u64
    ensures { result ≡ word % 2 ^ width_of kind }
{
    match kind {
        Kind::I8 | Kind::U8 => word & 0xff,
        Kind::I16 | Kind::U16 => word & 0xffff,
        Kind::I32 | Kind::U32 => word & 0xffff_ffff,
        Kind::I64 | Kind::U64 => word,
    }
}

/// Whether a number of 64 bits is one of a kind.
#[inline(always)]
pub(crate) fn holds(kind: Kind, number: i64) -> bool
    ensures { result ≡ holds_value kind number }
{
    match kind {
        Kind::I8 => -0x80 <= number && number <= 0x7f,
        Kind::U8 => 0 <= number && number <= 0xff,
        Kind::I16 => -0x8000 <= number && number <= 0x7fff,
        Kind::U16 => 0 <= number && number <= 0xffff,
        Kind::I32 => -0x8000_0000 <= number && number <= 0x7fff_ffff,
        Kind::U32 => 0 <= number && number <= 0xffff_ffff,
        Kind::I64 => true,
        Kind::U64 => 0 <= number,
    }
}

/// How many bits a kind has.
#[inline(always)]
pub(crate) fn width(kind: Kind) -> u64
    ensures { result ≡ width_of kind }
{
    match kind {
        Kind::I8 | Kind::U8 => 8,
        Kind::I16 | Kind::U16 => 16,
        Kind::I32 | Kind::U32 => 32,
        Kind::I64 | Kind::U64 => 64,
    }
}

/// The word of a truth value.
#[inline(always)]
pub(crate) fn truth(holds: bool) -> u64
    ensures { Ok result ≡ word_result (Ok (truth_of holds)) }
{
    if holds { 1 } else { 0 }
}
