ghost use Rattle.std.specs.Prelude.{◌≡◌, ◌≤◌, length, drop};
ghost use Rattle.c_lexer.specs.Bytes.{starts_line};
ghost use Rattle.c_lexer.specs.Units.{is_include, names_header, ends_line, ends_in_comment, is_return, past_gaps};

use crate::characters::{is_blank, is_gap};
use crate::comments::closes_comment;
use crate::tables::names_some_header;

/// Whether only blanks are on its line before the place.
pub fn starts_line(text: &[u8], at: usize) -> bool
    requires { at ≤ length text.now }
    ensures { result ≡ starts_line text.now at }
{
    let mut before = at;
    while before > 0 {
        let byte = text[before - 1];
        if byte == b'\n' {
            return true;
        }
        if !is_blank(byte) {
            return false;
        }
        before -= 1;
    }
    true
}

/// Whether the line includes a header of the language.
#[tactic(auto, unfolding(crate::specs::Units::is_include))]
pub fn is_include(line: &[u8]) -> bool
    ensures { result ≡ is_include line.now }
{
    if !line.starts_with(b"#include") {
        return false;
    }
    let (_, rest) = line.split_at(8);
    names_some_header(past_gaps(rest))
}

/// Whether the text is the header and the end of its line.
#[tactic(auto, unfolding(crate::specs::Units::names_header))]
pub fn names_header(text: &[u8], header: &[u8]) -> bool
    ensures { result ≡ names_header text.now header.now }
{
    if !text.starts_with(header) {
        return false;
    }
    let (_, rest) = text.split_at(header.len());
    ends_line(past_gaps(rest))
}

/// The bytes without the spaces and tabs in front.
fn past_gaps(bytes: &[u8]) -> &[u8]
    ensures { result.now ≡ past_gaps bytes.now }
{
    let mut rest = bytes;
    while !rest.is_empty() && is_gap(rest[0]) {
        rest = rest.split_at(1).1;
    }
    rest
}

/// Whether nothing but a comment and a carriage return is at the end of a line.
#[tactic(auto, unfolding(crate::specs::Units::ends_line))]
fn ends_line(rest: &[u8]) -> bool
    ensures { result ≡ ends_line rest.now }
{
    if is_return(rest) || rest.starts_with(b"//") {
        return true;
    }
    if !rest.starts_with(b"/*") {
        return false;
    }
    ends_in_comment(rest.split_at(2).1)
}

/// Whether a comment, of which the bytes are the rest, and a carriage return end the line.
fn ends_in_comment(bytes: &[u8]) -> bool
    ensures { result ≡ ends_in_comment bytes.now }
{
    let mut rest = bytes;
    while !rest.is_empty() {
        if closes_comment(rest) {
            return is_return(past_gaps(rest.split_at(2).1));
        }
        rest = rest.split_at(1).1;
    }
    false
}

/// Whether the bytes are nothing, or a carriage return.
fn is_return(rest: &[u8]) -> bool
    ensures { result ≡ is_return rest.now }
{
    rest.is_empty() || (rest.len() == 1 && rest[0] == b'\r')
}
