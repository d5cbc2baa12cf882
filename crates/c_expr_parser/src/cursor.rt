ghost use Rattle.std.specs.Prelude.{◌≡◌, ◌∷◌, ◌<◌, ◌≤◌, length, true, false, IfOk, MatchOption, MatchResult, IsTrue};
ghost use Rattle.c_lexer.specs.declared.token.Token.{Token};
ghost use Rattle.c_expr_parser.specs.Tables.{is, is_kind, is_one, holds_ahead};
ghost use Rattle.c_expr_parser.specs.Readings.{most_depth};
ghost use Rattle.c_expr_parser.specs.Plans.{Word, Naming, One, read, nothing, named, reads, Stops, Finds};

use crate::constants::constant;
use crate::stop::Stop;
use c_lexer::{Token, TokenKind};
use c_tree::Name;

/// A token is in at most so many constructs that count as depth.
pub const MOST_DEPTH: u32 = 64;

/// Whether a token has a kind.
pub fn is_kind(token: &Token, kind: TokenKind) -> bool
    ensures { result ≡ is_kind kind token.now }
{
    token.kind == kind
}

/// Whether a token has a kind and a spelling.
pub fn is(token: &Token, kind: TokenKind, spelling: &str) -> bool
    ensures { result ≡ is kind spelling.now token.now }
{
    token.kind == kind && token.text.as_str() == spelling
}

/// The tokens after the first, if that has a kind and a spelling.
pub fn skip<'a>(tokens: &'a [Token], kind: TokenKind, spelling: &str) -> Option<&'a [Token]>
    ensures { MatchOption result (holds_ahead (is kind spelling.now) tokens.now ≡ false)
        (λ rest. (t : Token) × (tokens.now ≡ t ∷ rest.now) × (is kind spelling.now t ≡ true)) }
{
    match tokens.split_first() {
        Some((first, rest)) => {
            if is(first, kind, spelling) {
                Some(rest)
            } else {
                None
            }
        }
        None => None,
    }
}

/// Stops where the depth of the first token, which fits, is too great.
pub fn shallow(tokens: &[Token], depth: u32) -> Result<(), Stop>
    ensures { MatchResult result (λ done. depth ≤ most_depth)
        (λ stop. (most_depth < depth) × (stop ≡ Stop.Deep (length tokens.now))) }
{
    if depth > MOST_DEPTH {
        return Err(Stop::Deep(tokens.len()));
    }
    Ok(())
}

/// The tokens after one of a kind and a spelling.
pub fn take<'a>(
    tokens: &'a [Token],
    kind: TokenKind,
    spelling: &str,
    depth: u32,
) -> Result<&'a [Token], Stop>
    ensures reads { Finds (reads (Word kind spelling.now depth) tokens.now) (λ rest. read nothing rest.now) result }
    ensures within { IfOk result (λ rest. (depth ≤ most_depth) × (length rest.now < length tokens.now)) }
{
    match tokens.split_first() {
        Some((token, rest)) => {
            if !is(token, kind, spelling) {
                Err(Stop::Stuck(tokens.len()))
            } else if depth > MOST_DEPTH {
                Err(Stop::Deep(tokens.len()))
            } else {
                Ok(rest)
            }
        }
        None => Err(Stop::Stuck(0)),
    }
}

/// An identifier.
pub fn name(tokens: &[Token], depth: u32) -> Result<(Name, &[Token]), Stop>
    ensures reads { Finds (reads (Naming depth) tokens.now) (λ x. read (named x.0) x.1.now) result }
    ensures within { IfOk result (λ x. (depth ≤ most_depth) × (length x.1.now < length tokens.now)) }
{
    match tokens.split_first() {
        Some((token, rest)) => {
            if !is_kind(token, TokenKind::Identifier) {
                Err(Stop::Stuck(tokens.len()))
            } else if depth > MOST_DEPTH {
                Err(Stop::Deep(tokens.len()))
            } else {
                let name = Name {
                    place: token.at,
                    text: token.text.clone()?,
                };
                Ok((name, rest))
            }
        }
        None => Err(Stop::Stuck(0)),
    }
}

/// A number of value 1.
pub fn one(tokens: &[Token], depth: u32) -> Result<&[Token], Stop>
    ensures reads { Finds (reads (One depth) tokens.now) (λ rest. read nothing rest.now) result }
    ensures within { IfOk result (λ rest. (depth ≤ most_depth) × (length rest.now < length tokens.now)) }
{
    match tokens.split_first() {
        Some((token, rest)) => {
            if !is_one(token) {
                Err(Stop::Stuck(tokens.len()))
            } else if depth > MOST_DEPTH {
                Err(Stop::Deep(tokens.len()))
            } else {
                Ok(rest)
            }
        }
        None => Err(Stop::Stuck(0)),
    }
}

/// Whether a token is a number of value 1.
fn is_one(token: &Token) -> bool
    ensures { result ≡ is_one token.now }
{
    if !is_kind(token, TokenKind::Number) {
        return false;
    }
    match constant(token.text.as_str()) {
        Some(number) => number.value() == 1,
        None => false,
    }
}
