ghost use Rattle.std.specs.Prelude.{◌≡◌, ◌<◌, ◌≤◌, ◌++◌, length, pos, ℕ, List, Some, None, [], true, false, if◌then◌else◌, option_map, unwrap_or, is_some, string_bytes, IfOk, MatchOption};
ghost use Rattle.c_ints.specs.declared.kind.Kind.TheVariants.{I32};
ghost use Rattle.c_ints.specs.Number.{number};
ghost use Rattle.c_lexer.specs.Bytes.{quote, double_quote};
ghost use Rattle.c_lexer.specs.declared.token.TokenKind.TheVariants.{Str};
ghost use Rattle.c_expr_parser.specs.Quoted.{escaped, unescaped};
ghost use Rattle.c_expr_parser.specs.Readings.{most_depth};
ghost use Rattle.c_expr_parser.specs.Tables.{is_kind, only, unquoted, when_some};
ghost use Rattle.c_expr_parser.specs.Plans.{MoreStrings, Strings, read, quoted, reads, Finds};

use crate::cursor::{MOST_DEPTH, is_kind};
use crate::stop::Stop;
use c_ints::Int;
use c_lexer::{Token, TokenKind};
use dsu_io::Text;
use std::alloc::{AllocError, Global};

/// Adjacent strings that were read as one.
#[derive(Drop)]
pub struct Format {
    /// The first byte of the first.
    pub place: usize,
    /// What they mean together.
    pub text: Text,
}

/// The value of a character constant with one character between its quotes, an `int` (C11 6.4.4.4).
pub fn character(text: &str) -> Option<Int>
    ensures { result ≡ option_map (λ b. number I32 (pos b)) (only (unquoted quote text.now)) }
{
    let byte = match body(text, '\'')?.as_bytes() {
        [byte] => *byte,
        [b'\\', byte] => escaped_byte(*byte),
        _ => return None,
    };
    Some(Int::I32(byte as i32))
}

/// Adjacent strings, which are read as one (6.4.5 paragraph 5).
pub fn strings(alloc: Global, tokens: &[Token], depth: u32) -> Result<(Format, &[Token]), Stop>
    ensures reads { Finds (reads (Strings depth) tokens.now) (λ x. read (quoted x.0.place x.0.text) x.1.now) result }
    ensures within { IfOk result (λ x. (depth ≤ most_depth) × (length x.1.now < length tokens.now)) }
{
    let Some((first, behind)) = tokens.split_first() else {
        return Err(Stop::Stuck(0));
    };
    let mut bytes = String::new(alloc);
    if !append_token(first, &mut bytes)? {
        return Err(Stop::Stuck(tokens.len()));
    }
    if depth > MOST_DEPTH {
        return Err(Stop::Deep(tokens.len()));
    }
    let rest = append_strings(behind, &mut bytes)?;
    let format = Format {
        place: first.at,
        text: Text::from(bytes),
    };
    Ok((format, rest))
}

/// Appends what the strings at the start mean, and gives the tokens after them.
fn append_strings<'a>(tokens: &'a [Token], into: &mut String) -> Result<&'a [Token], AllocError>
    ensures reads { IfOk result (λ rest. (depth place : ℕ) → depth ≤ most_depth
        → reads (MoreStrings depth place (string_bytes into.old)) tokens.now ≡ read (quoted place (string_bytes into.new)) rest.now) }
    ensures within { IfOk result (λ rest. length rest.now ≤ length tokens.now) }
{
    let mut rest = tokens;
    while let Some((token, behind)) = rest.split_first() {
        if !append_token(token, into)? {
            break;
        }
        rest = behind;
    }
    Ok(rest)
}

/// Appends what a string means, and tells whether the token is one.
fn append_token(token: &Token, into: &mut String) -> Result<bool, AllocError>
    ensures { let meant = when_some (is_kind Str token.now) (unquoted double_quote token.now.text) in
        IfOk result (λ is_string. (is_string ≡ is_some meant) × (string_bytes into.new ≡ string_bytes into.old ++ unwrap_or meant [])) }
{
    if !is_kind(token, TokenKind::Str) {
        return Ok(false);
    }
    append_string(token.text.as_str(), into)
}

/// Appends what stands between double quotes, with its escapes read, and tells whether there are such quotes.
fn append_string(text: &str, into: &mut String) -> Result<bool, AllocError>
    ensures { let meant = unquoted double_quote text.now in
        IfOk result (λ is_quoted. (is_quoted ≡ is_some meant) × (string_bytes into.new ≡ string_bytes into.old ++ unwrap_or meant [])) }
{
    let Some(body) = body(text, '"') else {
        return Ok(false);
    };
    append_unescaped(body, into)?;
    Ok(true)
}

/// Appends a text, each of its escapes read as one character (6.4.4.4).
fn append_unescaped(body: &str, into: &mut String) -> Result<(), AllocError>
    ensures { IfOk result (λ _. string_bytes into.new ≡ string_bytes into.old ++ unescaped body.now) }
{
    let mut behind_backslash = false;
    for c in body.chars() {
        if behind_backslash {
            into.push(escaped(c))?;
            behind_backslash = false;
        } else if c == '\\' {
            behind_backslash = true;
        } else {
            into.push(c)?;
        }
    }
    if behind_backslash {
        into.push('\\')?;
    }
    Ok(())
}

/// The character that a backslash and a character stand for.
fn escaped(c: char) -> char
    ensures { result ≡ escaped c }
{
    match c {
        'n' => '\n',
        't' => '\t',
        'r' => '\r',
        '0' => '\0',
        _ => c,
    }
}

/// The byte that a backslash and a byte stand for.
fn escaped_byte(byte: u8) -> u8
    ensures { result ≡ escaped byte }
{
    match byte {
        b'n' => b'\n',
        b't' => b'\t',
        b'r' => b'\r',
        b'0' => 0,
        _ => byte,
    }
}

/// What stands between a quote at each end.
fn body(text: &str, quote: char) -> Option<&str>
    requires { quote < 128 }
    ensures { MatchOption result (unquoted quote text.now ≡ None) (λ body. unquoted quote text.now ≡ Some (unescaped body.now)) }
{
    text.strip_prefix(quote)?.strip_suffix(quote)
}
