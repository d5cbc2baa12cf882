ghost use Rattle.std.specs.Prelude.{◌≡◌, ◌≢◌, ◌≤◌, ◌<◌, ◌++◌, ◌∷◌, [], length, List, Ok, Err, Result, MatchResult, OnOk, IfOk, IfErr};
ghost use Rattle.std.specs.Str.{IsUtf8};
ghost use Rattle.c_lexer.specs.declared.token.LexFault.{LexFault};
ghost use Rattle.c_lexer.specs.declared.token.Token.{Token};
ghost use Rattle.c_lexer.specs.Cut.{Lexes, token, most_tokens};
ghost use Rattle.c_lexer.specs.Compute.{lexed};

use crate::scan::unit_at;
use crate::token::{LexFault, Token, TokenKind};
use crate::unit::Reading;
use dsu_io::Text;
use std::alloc::{AllocError, Global};
use std::str;

/// A text has at most so many tokens.
const MOST_TOKENS: usize = 65_536;

/// The tokens of a text, or its first fault.
///
/// The text is cut from its start into units, each the longest at its place (6.4p4): blanks, tokens and
/// faults. The first fault ends the cut. More tokens than the limit in front of it, or of the end, are a
/// fault at the first byte of the first token past the limit. The time is linear in the text's length.
pub fn lex(alloc: Global, text: &[u8]) -> Result<Vec<Token>, LexFault>
    // The answer is that of the text's cut.
    ensures cut { MatchResult result (λ tokens. Lexes text.now (Ok tokens.items)) (λ fault. fault ≢ LexFault.Memory → Lexes text.now (Err fault)) }
    // No other answer is.
    ensures only { (other : Result (List Token) LexFault) → Lexes text.now other
        → MatchResult result (λ tokens. other ≡ Ok tokens.items) (λ fault. fault ≢ LexFault.Memory → other ≡ Err fault) }
    // It is the one that can be computed by trying every length at every place.
    ensures computed { MatchResult result (λ tokens. lexed text.now ≡ Ok tokens.items) (λ fault. fault ≢ LexFault.Memory → lexed text.now ≡ Err fault) }
{
    let mut tokens = Vec::new(alloc);
    let mut at = 0;
    while at < text.len() {
        let unit = unit_at(text, at);
        match unit.reading {
            Reading::Space => {}
            Reading::Lexeme(kind) => {
                let (_, rest) = text.split_at(at);
                push_token(alloc, &mut tokens, kind, at, &rest[..unit.len])?;
            }
            Reading::Bad(fault) => return Err(fault.at(at)),
        }
        at += unit.len;
    }
    Ok(tokens)
}

/// Adds a token, unless there are as many as a text may have.
fn push_token(
    alloc: Global,
    tokens: &mut Vec<Token>,
    kind: TokenKind,
    at: usize,
    spelling: &[u8],
) -> Result<(), LexFault>
    requires { IsUtf8 spelling.now }
    ensures room { OnOk result (length tokens.old.items < most_tokens) }
    ensures pushed { OnOk result (tokens.new.items ≡ tokens.old.items ++ token kind at spelling.now ∷ []) }
    ensures full { IfErr result (λ fault. fault ≢ LexFault.Memory → fault ≡ LexFault.TooMany at) }
    ensures most { IfErr result (λ fault. fault ≢ LexFault.Memory → most_tokens ≤ length tokens.old.items) }
{
    if tokens.len() >= MOST_TOKENS {
        return Err(LexFault::TooMany(at));
    }
    match token_of(alloc, kind, at, spelling) {
        Ok(token) => match tokens.push(token) {
            Ok(()) => Ok(()),
            Err(_) => Err(LexFault::Memory),
        },
        Err(_) => Err(LexFault::Memory),
    }
}

/// The token of a spelling at a place.
fn token_of(alloc: Global, kind: TokenKind, at: usize, spelling: &[u8]) -> Result<Token, AllocError>
    requires { IsUtf8 spelling.now }
    ensures { IfOk result (λ made. made ≡ token kind at spelling.now) }
{
    let text = match str::from_utf8(spelling) {
        Ok(text) => Text::of(alloc, text)?,
        Err(_) => unreachable!(),
    };
    Ok(Token {
        kind,
        at,
        len: spelling.len(),
        text,
    })
}
