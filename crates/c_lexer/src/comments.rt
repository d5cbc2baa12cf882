ghost use Rattle.std.specs.Prelude.{◌≡◌, ◌<◌, ◌&&◌, ◌==◌, length, drop, slice_index};
ghost use Rattle.std.specs.List.{list_all};
ghost use Rattle.c_lexer.specs.Bytes.{stays_in_line};
ghost use Rattle.c_lexer.specs.Units.{begins_with, read_comment};
ghost use Rattle.c_lexer.specs.Prefixes.{IsLongest};
ghost use Rattle.c_lexer.specs.Cut.{IsUnit};

use crate::unit::{Fault, Reading, Unit};

/// How many bytes come before the first newline, or the end.
pub fn line_len(bytes: &[u8]) -> usize
    ensures { IsLongest (list_all stays_in_line) bytes.now result }
{
    for (len, byte) in bytes.iter().enumerate() {
        if *byte == b'\n' {
            return len;
        }
    }
    bytes.len()
}

/// What follows `/*`: a comment up to its first `*/`, or a fault up to the end.
pub fn comment_unit(bytes: &[u8]) -> Unit
    ensures { IsUnit read_comment bytes.now result.len result.reading }
{
    let mut at = 0;
    while at < bytes.len() {
        let (_, rest) = bytes.split_at(at);
        if closes_comment(rest) {
            return Unit {
                len: at + 2,
                reading: Reading::Space,
            };
        }
        at += 1;
    }
    Unit {
        len: at,
        reading: Reading::Bad(Fault::Byte),
    }
}

/// Whether `*/` is in front.
pub fn closes_comment(rest: &[u8]) -> bool
    requires { 0 < length rest.now }
    ensures { result ≡ ((slice_index rest.now 0 == 42) && begins_with 47 (drop 1 rest.now)) }
{
    rest[0] == b'*' && 1 < rest.len() && rest[1] == b'/'
}
