ghost use Rattle.std.specs.Prelude.{Err, List, drop, if◌then◌else◌, min, slice_index, take, ℕ, ◌*◌, ◌+◌, ◌<◌, ◌==◌, ◌^◌, ◌||◌, ◌↔◌, ◌≡◌, ◌≤◌, ◌⊎◌};
ghost use Rattle.std.specs.Char.{is_digit};
ghost use Rattle.std.specs.List.{prefix_len};
ghost use Rattle.std.specs.Option.{option_map_or};
ghost use Rattle.std.specs.Str.Parse.{digits_value};
ghost use Rattle.c_ints.specs.Literal.{IsLiteral, IsSomeLiteral, base, kinds as kinds_tried, literal_value, suffix_of as written_suffix, typed as typed_value};
ghost use Rattle.c_ints.specs.declared.constant.Radix.{Radix};
ghost use Rattle.c_ints.specs.declared.constant.Suffix.{Suffix};

use crate::int::Int;
use crate::kind::Kind;

/// How the digits of a constant are read (C11 6.4.4.1 paragraph 3).
#[derive(Clone, Copy)]
pub enum Radix {
    /// To the base 10; the first digit isn't 0.
    Decimal,
    /// To the base 8; the first digit is 0.
    Octal,
    /// To the base 16, after `0x` or `0X`.
    Hexadecimal,
}

/// What a constant says of its type (C11 6.4.4.1 paragraph 5).
#[derive(Clone, Copy)]
pub enum Suffix {
    /// No suffix.
    Plain,
    /// `u`
    Unsigned,
    /// `l`
    Long,
    /// Both, in either order.
    UnsignedLong,
}

/// Why a text is no integer constant.
#[derive(Clone, Copy, Debug, PartialEq, Eq)]
pub enum LiteralFault {
    /// It isn't written as one.
    Shape,
    /// It is, and no type of its list holds the value.
    Range,
}

/// The digits at the start of a text.
#[derive(Clone, Copy)]
struct Run {
    /// How many there are.
    count: usize,
    /// Their value, or 2 ^ 64 where it is larger.
    value: u128,
}

/// More than any kind holds.
const TOO_LARGE: u128 = 0x1_0000_0000_0000_0000;

/// The integer that a text writes as a constant of C (C11 6.4.4.1): decimal, octal or hexadecimal
/// digits, with `u`, `l`, both or neither after them. Its type is the first of the list for its form
/// that holds the value. Reads the text once.
pub fn literal(text: &str) -> Result<Int, LiteralFault>
    // A text that is a constant has that constant's value, or its fault.
    ensures value { (radix : Radix) → (digits : List ℕ) → (suffix : Suffix) → IsLiteral text.now radix digits suffix
        → result ≡ literal_value radix digits suffix }

    // Another text is no constant.
    ensures some { IsSomeLiteral text.now ⊎ (result ≡ Err LiteralFault.Shape) }
    ensures shape { (result ≡ Err LiteralFault.Shape) ↔ ¬ IsSomeLiteral text.now }
{
    let bytes = text.as_bytes();
    let radix = radix_of(bytes);
    match radix {
        Radix::Hexadecimal => read_digits(radix, &bytes[2..]),
        Radix::Decimal | Radix::Octal => read_digits(radix, bytes),
    }
}

/// A constant after its prefix.
fn read_digits(radix: Radix, rest: &[u8]) -> Result<Int, LiteralFault>
    ensures { let n = prefix_len (λ c. is_digit c (base radix)) rest.now in
        result ≡ (if n == 0 then Err LiteralFault.Shape
        else option_map_or (literal_value radix (take n rest.now)) (written_suffix (drop n rest.now)) (Err LiteralFault.Shape)) }
{
    let run = leading_digits(radix, rest);
    if run.count == 0 {
        return Err(LiteralFault::Shape);
    }
    match suffix_of(&rest[run.count..]) {
        Some(suffix) => typed(radix, suffix, run.value),
        None => Err(LiteralFault::Shape),
    }
}

/// The radix that the first bytes announce.
fn radix_of(bytes: &[u8]) -> Radix
    ensures { result ≡ (if slice_index bytes.now 0 == 48
        then (if slice_index bytes.now 1 == 120 || slice_index bytes.now 1 == 88 then Radix.Hexadecimal else Radix.Octal)
        else Radix.Decimal) }
{
    match bytes {
        [b'0', b'x' | b'X', ..] => Radix::Hexadecimal,
        [b'0', ..] => Radix::Octal,
        _ => Radix::Decimal,
    }
}

/// How many digits a radix has.
fn base_of(radix: Radix) -> u32
    ensures value { result ≡ base radix }
    ensures least { 2 ≤ result }
    ensures most { result ≤ 16 }
{
    match radix {
        Radix::Decimal => 10,
        Radix::Octal => 8,
        Radix::Hexadecimal => 16,
    }
}

/// The digits of a radix that a text begins with.
fn leading_digits(radix: Radix, bytes: &[u8]) -> Run
    ensures count { result.count ≡ prefix_len (λ c. is_digit c (base radix)) bytes.now }
    ensures value { result.value ≡ min (digits_value (base radix) (take result.count bytes.now)) TOO_LARGE }
{
    let base = base_of(radix);
    let mut value = 0;
    for (i, byte) in bytes.iter().enumerate() {
        let Some(digit) = char::from(*byte).to_digit(base) else {
            return Run { count: i, value };
        };
        value = more(value, base, digit);
    }
    Run {
        count: bytes.len(),
        value,
    }
}

/// The value of digits with one more after them.
fn more(value: u128, base: u32, digit: u32) -> u128
    requires value { value ≤ TOO_LARGE }
    requires base { base ≤ 16 }
    requires digit { digit < base }
    ensures { result ≡ min (value * base + digit) TOO_LARGE }
{
    (value * base as u128 + digit as u128).min(TOO_LARGE)
}

/// The suffix that the bytes after the digits are.
fn suffix_of(bytes: &[u8]) -> Option<Suffix>
    ensures { result ≡ written_suffix bytes.now }
{
    match bytes {
        [] => Some(Suffix::Plain),
        [b'u' | b'U'] => Some(Suffix::Unsigned),
        [b'l' | b'L'] => Some(Suffix::Long),
        [b'u' | b'U', b'l' | b'L'] | [b'l' | b'L', b'u' | b'U'] => Some(Suffix::UnsignedLong),
        _ => None,
    }
}

/// The kinds that a constant of a form may have, in the order in which they are tried.
fn kinds(radix: Radix, suffix: Suffix) -> &'static [Kind]
    ensures { result.now ≡ kinds_tried radix suffix }
{
    match (suffix, radix) {
        (Suffix::Plain, Radix::Decimal) => &[Kind::I32, Kind::I64],
        (Suffix::Plain, _) => &[Kind::I32, Kind::U32, Kind::I64, Kind::U64],
        (Suffix::Unsigned, _) => &[Kind::U32, Kind::U64],
        (Suffix::Long, Radix::Decimal) => &[Kind::I64],
        (Suffix::Long, _) => &[Kind::I64, Kind::U64],
        (Suffix::UnsignedLong, _) => &[Kind::U64],
    }
}

/// A value at the first of its kinds that holds it.
fn typed(radix: Radix, suffix: Suffix, value: u128) -> Result<Int, LiteralFault>
    requires { value ≤ TOO_LARGE }
    ensures { result ≡ typed_value radix suffix value }
{
    let value = value as i128;
    for kind in kinds(radix, suffix) {
        if kind.holds(value) {
            return Ok(Int::new(*kind, value));
        }
    }
    Err(LiteralFault::Range)
}
