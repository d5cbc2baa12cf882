use dsu_io::Text;
use std::alloc::AllocError;

/// What a token is.
#[derive(Clone, Copy, Debug, PartialEq, Eq)]
pub enum TokenKind {
    /// A name that the program is free to declare.
    Identifier,
    /// A keyword of C11 (6.4.1).
    Keyword,
    /// A name of the library, or of updating, that the language knows and a program can't declare (7.1.3).
    LibraryWord,
    Number,
    Character,
    Str,
    /// A punctuator (6.4.6).
    Punctuator,
}

/// A token of a text.
#[derive(Drop)]
pub struct Token {
    pub kind: TokenKind,
    /// The place of its first byte, counted in bytes from 0.
    pub at: usize,
    /// Its length in bytes.
    pub len: usize,
    /// Its bytes as they are in the text.
    pub text: Text,
}

/// Why a text has no token list. Each place is a byte's, counted from 0.
#[derive(Clone, Copy, Debug, PartialEq, Eq)]
pub enum LexFault {
    /// No blank, comment or token begins at the place.
    BadByte(usize),
    /// A number, character or string that begins at the place is malformed or has no value.
    BadLiteral(usize),
    /// A line that begins with `#` at the place and includes none of the known headers.
    Directive(usize),
    /// One token more than `MOST_TOKENS` is in the text; the place is its first byte's.
    TooMany(usize),
    /// Lack of memory.
    Memory,
}
