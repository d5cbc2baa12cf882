ghost use Rattle.std.specs.Prelude.{◌≡◌, ◌<◌, MatchOption, IfSome, true, length, drop};
ghost use Rattle.c_lexer.specs.Bytes.{is_blank, is_gap, starts_word, continues_word, may_start_word};
ghost use Rattle.c_lexer.specs.Units.{consists_of, is_name};
ghost use Rattle.c_lexer.specs.Prefixes.{IsLongest, NonePasses, NoMorePasses, Passes};

use bstr::decode_utf8;

/// Whether the byte may stand between any two tokens.
pub fn is_blank(byte: u8) -> bool
    ensures { result ≡ is_blank byte }
{
    matches!(byte, b' ' | 9..=13)
}

/// Whether the byte may stand between the parts of a directive.
pub fn is_gap(byte: u8) -> bool
    ensures { result ≡ is_gap byte }
{
    matches!(byte, b' ' | b'\t')
}

/// Whether a name may begin with the byte, as far as the byte alone says.
pub fn may_start_word(byte: u8) -> bool
    ensures { result ≡ may_start_word byte }
{
    byte.is_ascii_alphabetic() || byte == b'_' || byte >= 128
}

fn starts_word(character: char) -> bool
    ensures { result ≡ starts_word character }
{
    if character.is_ascii() {
        character.is_ascii_alphabetic() || character == '_'
    } else {
        unicode_ident::is_xid_start(character)
    }
}

fn continues_word(character: char) -> bool
    ensures { result ≡ continues_word character }
{
    if character.is_ascii() {
        character.is_ascii_alphanumeric() || character == '_'
    } else {
        unicode_ident::is_xid_continue(character)
    }
}

/// How many bytes at the start are characters that a word may go on with.
pub fn continue_len(bytes: &[u8]) -> usize
    ensures { IsLongest (consists_of continues_word) bytes.now result }
{
    let mut at = 0;
    while at < bytes.len() {
        let (_, rest) = bytes.split_at(at);
        match next_len(rest) {
            Some(len) => at += len,
            None => return at,
        }
    }
    at
}

/// The length of the character in front, where a word may go on with it.
fn next_len(rest: &[u8]) -> Option<usize>
    ensures next { MatchOption result (NoMorePasses (consists_of continues_word) rest.now) (Passes (consists_of continues_word) rest.now) }
    ensures some { IfSome result (λ n. 0 < n) }
{
    let (first, len) = decode_utf8(rest);
    match first {
        Some(character) => {
            if continues_word(character) {
                Some(len)
            } else {
                None
            }
        }
        None => None,
    }
}

/// The length of the name in front, or none where no name begins.
pub fn name_len(rest: &[u8]) -> Option<usize>
    ensures { MatchOption result (NonePasses is_name rest.now) (IsLongest is_name rest.now) }
{
    let (first, len) = decode_utf8(rest);
    match first {
        Some(character) => {
            if starts_word(character) {
                let (_, tail) = rest.split_at(len);
                Some(len + continue_len(tail))
            } else {
                None
            }
        }
        None => None,
    }
}
