ghost use Rattle.std.specs.Prelude.{◌≡◌, map};
ghost use Rattle.std.specs.List.{list_any};
ghost use Rattle.c_lexer.specs.Units.{headers, punctuators, names_header};
ghost use Rattle.c_lexer.specs.Words.{is_one_of, word_kind};

use crate::directives::names_header;
use crate::token::TokenKind;

const KEYWORDS: [&str; 44] = [
    "auto",
    "break",
    "case",
    "char",
    "const",
    "continue",
    "default",
    "do",
    "double",
    "else",
    "enum",
    "extern",
    "float",
    "for",
    "goto",
    "if",
    "inline",
    "int",
    "long",
    "register",
    "restrict",
    "return",
    "short",
    "signed",
    "sizeof",
    "static",
    "struct",
    "switch",
    "typedef",
    "union",
    "unsigned",
    "void",
    "volatile",
    "while",
    "_Alignas",
    "_Alignof",
    "_Atomic",
    "_Bool",
    "_Complex",
    "_Generic",
    "_Imaginary",
    "_Noreturn",
    "_Static_assert",
    "_Thread_local",
];

const LIBRARY_WORDS: [&str; 17] = [
    "printf",
    "calloc",
    "free",
    "thrd_create",
    "thrd_join",
    "thrd_t",
    "thrd_success",
    "thrd_error",
    "mtx_t",
    "mtx_init",
    "mtx_lock",
    "mtx_unlock",
    "mtx_plain",
    "NULL",
    "dsu_update",
    "dsu_tx",
    "dsu_transform",
];

const PUNCTUATORS: [&str; 45] = [
    "(", ")", "[", "]", "{", "}", ";", ",", ".", "->", "?", ":", "=", "+=", "-=", "*=", "/=", "%=",
    "&=", "|=", "^=", "<<=", ">>=", "||", "&&", "|", "^", "&", "==", "!=", "<", ">", "<=", ">=",
    "<<", ">>", "+", "-", "*", "/", "%", "~", "!", "++", "--",
];

/// Whether the bytes are a punctuator.
pub fn is_punctuator(spelling: &[u8]) -> bool
    ensures { result ≡ is_one_of punctuators spelling.now }
{
    is_one_of(&PUNCTUATORS, spelling)
}

const HEADERS: [&str; 4] = ["<stdio.h>", "<stdlib.h>", "<threads.h>", "\"dsu.h\""];

/// Whether the text after `#include` names a header that the language knows, and nothing else.
pub fn names_some_header(text: &[u8]) -> bool
    ensures { result ≡ list_any (names_header text.now) headers }
{
    is_some_header(&HEADERS, text)
}

fn is_some_header(names: &[&str], text: &[u8]) -> bool
    ensures { result ≡ list_any (names_header text.now) (map (λ t. t.now) names.now) }
{
    for name in names {
        if names_header(text, name.as_bytes()) {
            return true;
        }
    }
    false
}

/// Whether a word is a keyword, a name that the language knows, or free.
pub fn kind_of_word(word: &[u8]) -> TokenKind
    ensures { result ≡ word_kind word.now }
{
    if is_one_of(&KEYWORDS, word) {
        TokenKind::Keyword
    } else if is_one_of(&LIBRARY_WORDS, word) {
        TokenKind::LibraryWord
    } else {
        TokenKind::Identifier
    }
}

fn is_one_of(texts: &[&str], text: &[u8]) -> bool
    ensures { result ≡ is_one_of (map (λ t. t.now) texts.now) text.now }
{
    for one in texts {
        if text == one.as_bytes() {
            return true;
        }
    }
    false
}
