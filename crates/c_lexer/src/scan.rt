ghost use Rattle.std.specs.Prelude.{◌≡◌, ◌≢◌, ◌≤◌, ◌<◌, ◌+◌, ◌-◌, ◌*◌, ◌==◌, ◌&&◌, ◌||◌, nat_le, Bool, length, min, take, drop, slice_index, true, false, IsTrue, IsFalse, MatchOption};
ghost use Rattle.std.specs.Char.{is_ascii_digit};
ghost use Rattle.std.specs.Str.{IsUtf8};
ghost use Rattle.c_lexer.specs.Bytes.{is_blank, may_start_word};
ghost use Rattle.c_lexer.specs.Prefixes.{IsLongest, NonePasses};
ghost use Rattle.c_lexer.specs.Units.{begins_with, punctuators, reading, read_line};
ghost use Rattle.c_lexer.specs.Numbers.{is_number};
ghost use Rattle.c_lexer.specs.Words.{is_one_of};
ghost use Rattle.c_lexer.specs.Cut.{IsUnit, UnitAt};

use crate::characters::{continue_len, is_blank, may_start_word, name_len};
use crate::comments::{comment_unit, line_len};
use crate::directives::{is_include, starts_line};
use crate::quotes::{character_len, string_len};
use crate::tables::{is_punctuator, kind_of_word};
use crate::token::TokenKind;
use crate::unit::{Fault, Reading, Unit};
use c_ints::literal;
use std::str;

/// The unit at a place of the text.
pub fn unit_at(text: &[u8], at: usize) -> Unit
    requires { at < length text.now }
    ensures { UnitAt text.now at result.len result.reading }
{
    let (_, rest) = text.split_at(at);
    if rest[0] == b'#' {
        line_unit(rest, starts_line(text, at))
    } else {
        plain_unit(rest)
    }
}

/// A unit that begins with `#`: the rest of its line.
fn line_unit(rest: &[u8], starts: bool) -> Unit
    requires hash { slice_index rest.now 0 ≡ 35 }
    requires some { 0 < length rest.now }
    ensures { IsUnit (reading starts) rest.now result.len result.reading }
{
    let (_, tail) = rest.split_at(1);
    let len = line_len(tail) + 1;
    let reading = line_reading(starts, &rest[..len]);
    Unit { len, reading }
}

fn line_reading(starts: bool, line: &[u8]) -> Reading
    ensures { result ≡ read_line starts line.now }
{
    if !starts {
        Reading::Bad(Fault::Byte)
    } else if is_include(line) {
        Reading::Space
    } else {
        Reading::Bad(Fault::Directive)
    }
}

/// A unit that doesn't begin with `#`. It is the same wherever it is on its line.
fn plain_unit(rest: &[u8]) -> Unit
    requires hash { slice_index rest.now 0 ≢ 35 }
    requires some { 0 < length rest.now }
    ensures { (starts : Bool) → IsUnit (reading starts) rest.now result.len result.reading }
{
    let first = rest[0];
    if is_blank(first) {
        single(Reading::Space)
    } else if first == b'/' {
        slash_unit(rest)
    } else if first.is_ascii_digit() {
        digits_unit(rest)
    } else if first == b'\'' {
        character_unit(rest)
    } else if first == b'"' {
        string_unit(rest)
    } else if may_start_word(first) {
        name_unit(rest)
    } else {
        punctuator_unit(rest)
    }
}

fn single(reading: Reading) -> Unit
    ensures len { result.len ≡ 1 }
    ensures reading { result.reading ≡ reading }
{
    Unit { len: 1, reading }
}

/// A unit that begins with a slash: a comment or a punctuator.
fn slash_unit(rest: &[u8]) -> Unit
    requires slash { slice_index rest.now 0 ≡ 47 }
    requires some { 0 < length rest.now }
    ensures { (starts : Bool) → IsUnit (reading starts) rest.now result.len result.reading }
{
    if follows(rest, b'/') {
        line_comment_unit(rest)
    } else if follows(rest, b'*') {
        block_comment_unit(rest)
    } else {
        punctuator_unit(rest)
    }
}

/// Whether the byte stands second.
fn follows(rest: &[u8], byte: u8) -> bool
    ensures { result ≡ begins_with byte (drop 1 rest.now) }
{
    1 < rest.len() && rest[1] == byte
}

fn line_comment_unit(rest: &[u8]) -> Unit
    requires slash { slice_index rest.now 0 ≡ 47 }
    requires second { IsTrue (begins_with 47 (drop 1 rest.now)) }
    requires some { 1 < length rest.now }
    ensures { (starts : Bool) → IsUnit (reading starts) rest.now result.len result.reading }
{
    let (_, tail) = rest.split_at(2);
    Unit {
        len: line_len(tail) + 2,
        reading: Reading::Space,
    }
}

fn block_comment_unit(rest: &[u8]) -> Unit
    requires slash { slice_index rest.now 0 ≡ 47 }
    requires second { IsTrue (begins_with 42 (drop 1 rest.now)) }
    requires some { 1 < length rest.now }
    ensures { (starts : Bool) → IsUnit (reading starts) rest.now result.len result.reading }
{
    let (_, tail) = rest.split_at(2);
    let comment = comment_unit(tail);
    Unit {
        len: comment.len + 2,
        reading: comment.reading,
    }
}

/// A unit that begins with a digit: a number where it is a constant with a value.
fn digits_unit(rest: &[u8]) -> Unit
    requires digit { IsTrue (is_ascii_digit (slice_index rest.now 0)) }
    requires some { 0 < length rest.now }
    ensures { (starts : Bool) → IsUnit (reading starts) rest.now result.len result.reading }
{
    let (_, tail) = rest.split_at(1);
    let len = continue_len(tail) + 1;
    let reading = if is_number(&rest[..len]) {
        Reading::Lexeme(TokenKind::Number)
    } else {
        Reading::Bad(Fault::Literal)
    };
    Unit { len, reading }
}

/// Whether the word is an integer constant that some type holds.
fn is_number(word: &[u8]) -> bool
    requires { IsUtf8 word.now }
    ensures { result ≡ is_number word.now }
{
    match str::from_utf8(word) {
        Ok(text) => has_value(text),
        Err(_) => unreachable!(),
    }
}

fn has_value(text: &str) -> bool
    ensures { result ≡ is_number text.now }
{
    literal(text).is_ok()
}

/// A unit that begins with a quote.
fn character_unit(rest: &[u8]) -> Unit
    requires quote { slice_index rest.now 0 ≡ 39 }
    requires some { 0 < length rest.now }
    ensures { (starts : Bool) → IsUnit (reading starts) rest.now result.len result.reading }
{
    let (_, tail) = rest.split_at(1);
    match character_len(tail) {
        Some(len) => Unit {
            len: len + 1,
            reading: Reading::Lexeme(TokenKind::Character),
        },
        None => single(Reading::Bad(Fault::Literal)),
    }
}

/// A unit that begins with a double quote.
fn string_unit(rest: &[u8]) -> Unit
    requires quote { slice_index rest.now 0 ≡ 34 }
    requires some { 0 < length rest.now }
    ensures { (starts : Bool) → IsUnit (reading starts) rest.now result.len result.reading }
{
    let (_, tail) = rest.split_at(1);
    match string_len(tail) {
        Some(len) => Unit {
            len: len + 1,
            reading: Reading::Lexeme(TokenKind::Str),
        },
        None => single(Reading::Bad(Fault::Literal)),
    }
}

/// A unit that begins with a letter, `_`, or a byte past ASCII.
fn name_unit(rest: &[u8]) -> Unit
    requires letter { IsTrue (may_start_word (slice_index rest.now 0)) }
    requires some { 0 < length rest.now }
    ensures { (starts : Bool) → IsUnit (reading starts) rest.now result.len result.reading }
{
    match name_len(rest) {
        Some(len) => Unit {
            len,
            reading: Reading::Lexeme(kind_of_word(&rest[..len])),
        },
        None => single(Reading::Bad(Fault::Byte)),
    }
}

/// A unit that begins with none of the other forms' first bytes: a punctuator, or a byte that begins nothing.
fn punctuator_unit(rest: &[u8]) -> Unit
    requires blank { IsFalse (is_blank (slice_index rest.now 0)) }
    requires line { IsFalse ((slice_index rest.now 0 == 47) && begins_with 47 (drop 1 rest.now)) }
    requires block { IsFalse ((slice_index rest.now 0 == 47) && begins_with 42 (drop 1 rest.now)) }
    requires hash { slice_index rest.now 0 ≢ 35 }
    requires digit { IsFalse (is_ascii_digit (slice_index rest.now 0)) }
    requires quote { slice_index rest.now 0 ≢ 39 }
    requires double { slice_index rest.now 0 ≢ 34 }
    requires letter { IsFalse (may_start_word (slice_index rest.now 0)) }
    requires some { 0 < length rest.now }
    ensures { (starts : Bool) → IsUnit (reading starts) rest.now result.len result.reading }
{
    match punctuator_len(rest) {
        Some(len) => Unit {
            len,
            reading: Reading::Lexeme(TokenKind::Punctuator),
        },
        None => single(Reading::Bad(Fault::Byte)),
    }
}

/// The length of the longest punctuator in front, or none.
fn punctuator_len(rest: &[u8]) -> Option<usize>
    ensures { MatchOption result (NonePasses (is_one_of punctuators) rest.now) (IsLongest (is_one_of punctuators) rest.now) }
{
    if begins_punctuator(rest, 3) {
        Some(3)
    } else if begins_punctuator(rest, 2) {
        Some(2)
    } else if begins_punctuator(rest, 1) {
        Some(1)
    } else {
        None
    }
}

/// Whether the prefix of this length is a punctuator.
fn begins_punctuator(rest: &[u8], len: usize) -> bool
    ensures { result ≡ (nat_le len (length rest.now) && is_one_of punctuators (take len rest.now)) }
{
    len <= rest.len() && is_punctuator(&rest[..len])
}
