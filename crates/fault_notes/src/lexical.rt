//! What is wrong with bytes that are no token.
ghost use Rattle.std.specs.Prelude.{◌≤◌, length};

use std::alloc::{AllocError, Global};
use type_notes::Draft;

/// What a bad byte is.
pub(crate) fn bad_byte(alloc: Global, rest: &[u8]) -> Result<Draft, AllocError> {
    match rest {
        [b'/', b'*', ..] => Draft::of(alloc, "this comment has no end"),
        [b'#', ..] => Draft::of(
            alloc,
            "a '#' begins an include line, with blanks alone before it",
        ),
        [first, ..] => of_first(alloc, *first),
        [] => Draft::of(alloc, "no token begins here"),
    }
}

/// What a byte is with which no token begins.
fn of_first(alloc: Global, first: u8) -> Result<Draft, AllocError> {
    if first >= 128 {
        return Draft::of(
            alloc,
            "no name begins with this character, or these bytes aren't UTF-8",
        );
    }
    let mut draft = Draft::of(alloc, "no token begins with ")?;
    if first.is_ascii_graphic() {
        draft.byte(first);
    } else {
        draft.say("the byte ");
        draft.number(usize::from(first));
    }
    draft.done()
}

/// What is wrong with a constant or a string.
pub(crate) fn bad_literal(alloc: Global, rest: &[u8]) -> Result<Draft, AllocError> {
    match rest {
        [b'"', after @ ..] => Draft::of(alloc, of_string(after)),
        [b'\'', ..] => Draft::of(
            alloc,
            "a character is one printable byte between quotes, or one of \\n \\t \\r \\0 \\\\ \\' \\\"",
        ),
        _ => Draft::of(alloc, of_number(rest)),
    }
}

/// What is wrong with a string, by what comes after its first quote.
fn of_string(after: &[u8]) -> &'static str {
    let mut escaped = false;
    for byte in after {
        if *byte == b'\n' {
            return "this string has no end on its line";
        }
        if *byte == b'"' && !escaped {
            return "a string has printable characters and tabs, and the escapes \\n \\t \\r \\\\ \\' \\\"";
        }
        escaped = *byte == b'\\' && !escaped;
    }
    "this string has no end"
}

/// How many bytes the word of a number has.
fn word_len(rest: &[u8]) -> usize
    ensures { result ≤ length rest.now }
{
    for place in 0..rest.len() {
        let byte = rest[place];
        if !byte.is_ascii_alphanumeric() && byte != b'_' && byte < 128 {
            return place;
        }
    }
    rest.len()
}

/// What is wrong with a number.
fn of_number(rest: &[u8]) -> &'static str {
    let word = &rest[..word_len(rest)];
    match word {
        [b'0', b'x' | b'X', digits @ ..] => of_digits(digits, Digits::Hexadecimal),
        [b'0', digits @ ..] => of_digits(digits, Digits::Octal),
        digits => of_digits(digits, Digits::Decimal),
    }
}

/// Which digits a number has.
#[derive(Clone, Copy)]
enum Digits {
    Decimal,
    Octal,
    Hexadecimal,
}

/// Whether a byte is such a digit.
fn is_digit(byte: u8, digits: Digits) -> bool {
    match digits {
        Digits::Decimal => byte.is_ascii_digit(),
        Digits::Octal => (b'0'..=b'7').contains(&byte),
        Digits::Hexadecimal => byte.is_ascii_hexdigit(),
    }
}

/// Whether some bytes are a suffix of a number.
fn is_suffix(rest: &[u8]) -> bool {
    matches!(
        rest,
        [] | [b'u' | b'U' | b'l' | b'L'] | [b'u' | b'U', b'l' | b'L'] | [b'l' | b'L', b'u' | b'U']
    )
}

/// How many digits come first.
fn digits_len(word: &[u8], digits: Digits) -> usize
    ensures { result ≤ length word.now }
{
    for place in 0..word.len() {
        if !is_digit(word[place], digits) {
            return place;
        }
    }
    word.len()
}

/// What is wrong with a number, by what comes after its prefix.
fn of_digits(word: &[u8], digits: Digits) -> &'static str {
    let count = digits_len(word, digits);
    if is_suffix(&word[count..]) && count > 0 {
        return "no type holds a number of this size";
    }
    match digits {
        Digits::Decimal =>
            "after the digits of a number comes at most one suffix of u, l, ul or lu",
        Digits::Octal => "a number that begins with 0 is octal: its digits are 0 to 7",
        Digits::Hexadecimal =>
            "after 0x come hexadecimal digits, and at most one suffix of u, l, ul or lu",
    }
}

/// What is wrong with a directive.
pub(crate) fn directive(alloc: Global, rest: &[u8]) -> Result<Draft, AllocError> {
    match rest {
        [b'#', b'i', b'n', b'c', b'l', b'u', b'd', b'e', ..] => Draft::of(
            alloc,
            "an include line has <stdio.h>, <stdlib.h>, <threads.h> or \"dsu.h\", and nothing more but a comment",
        ),
        _ => Draft::of(
            alloc,
            "there is no preprocessor: of the lines that begin with '#' only include lines are passed over",
        ),
    }
}
