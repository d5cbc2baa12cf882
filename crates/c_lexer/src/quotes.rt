ghost use Rattle.std.specs.Prelude.{◌≡◌, ◌≢◌, ◌<◌, ◌&&◌, ◌||◌, ◌==◌, nat_le, length, take, slice_index, MatchOption, IfSome};
ghost use Rattle.std.specs.Str.{is_utf8};
ghost use Rattle.c_lexer.specs.Bytes.{is_plain, is_escape};
ghost use Rattle.c_lexer.specs.Units.{closes_character, closes_string};
ghost use Rattle.c_lexer.specs.Prefixes.{IsLongest, IsOnly, NonePasses, Skips};

use std::str;

/// How long the rest of a character is, with its closing quote, or none where it is none.
pub fn character_len(tail: &[u8]) -> Option<usize>
    ensures { MatchOption result (NonePasses closes_character tail.now) (IsLongest closes_character tail.now) }
{
    if ends_character(tail, 3) {
        Some(3)
    } else if ends_character(tail, 2) {
        Some(2)
    } else {
        None
    }
}

/// Whether the prefix of this length is the rest of a character.
fn ends_character(tail: &[u8], len: usize) -> bool
    ensures { result ≡ (nat_le len (length tail.now) && closes_character (take len tail.now)) }
{
    len <= tail.len() && closes_character(&tail[..len])
}

/// Whether the bytes are one byte or escape and a quote.
fn closes_character(bytes: &[u8]) -> bool
    ensures { result ≡ closes_character bytes.now }
{
    match bytes {
        [byte, b'\''] => is_plain(*byte, b'\''),
        [b'\\', escape, b'\''] => is_character_escape(*escape),
        _ => false,
    }
}

/// How long the rest of a string is, with its closing quote, or none where it is none.
pub fn string_len(tail: &[u8]) -> Option<usize>
    ensures { MatchOption result (NonePasses (λ s. closes_string s && is_utf8 s) tail.now) (IsLongest (λ s. closes_string s && is_utf8 s) tail.now) }
{
    match closing_len(tail) {
        Some(len) => {
            if is_text(&tail[..len]) {
                Some(len)
            } else {
                None
            }
        }
        None => None,
    }
}

/// Whether the bytes are UTF-8.
fn is_text(bytes: &[u8]) -> bool
    ensures { result ≡ is_utf8 bytes.now }
{
    match str::from_utf8(bytes) {
        Ok(_) => true,
        Err(_) => false,
    }
}

/// How long the rest of a string is, whether it is UTF-8 or not.
fn closing_len(tail: &[u8]) -> Option<usize>
    ensures { MatchOption result (NonePasses closes_string tail.now) (IsOnly closes_string tail.now) }
{
    let mut at = 0;
    while at < tail.len() {
        let (_, rest) = tail.split_at(at);
        if rest[0] == b'"' {
            return Some(at + 1);
        }
        match item_len(rest) {
            Some(len) => at += len,
            None => return None,
        }
    }
    None
}

/// The length of the escape or byte that is in a string, or none where it can't stand there.
fn item_len(rest: &[u8]) -> Option<usize>
    requires some { 0 < length rest.now }
    requires inside { slice_index rest.now 0 ≢ 34 }
    ensures item { MatchOption result (NonePasses closes_string rest.now) (Skips closes_string rest.now) }
    ensures some { IfSome result (λ n. 0 < n) }
{
    if rest[0] != b'\\' {
        return if stands_in_string(rest[0]) {
            Some(1)
        } else {
            None
        };
    }
    if 1 < rest.len() && is_escape(rest[1]) {
        Some(2)
    } else {
        None
    }
}

/// Whether the byte is in a string as itself.
fn stands_in_string(byte: u8) -> bool
    ensures { result ≡ ((is_plain 34 byte || (byte == 9)) || nat_le 128 byte) }
{
    is_plain(byte, b'"') || byte == b'\t' || byte >= 128
}

/// Whether the byte stands between such quotes as itself.
fn is_plain(byte: u8, quote: u8) -> bool
    ensures { result ≡ is_plain quote byte }
{
    matches!(byte, b' '..=b'~') && byte != quote && byte != b'\\'
}

fn is_escape(byte: u8) -> bool
    ensures { result ≡ is_escape byte }
{
    matches!(byte, b'n' | b't' | b'r' | b'\\' | b'\'' | b'"')
}

fn is_character_escape(byte: u8) -> bool
    ensures { result ≡ (is_escape byte || (byte == 48)) }
{
    is_escape(byte) || byte == b'0'
}
