//! That `c_lexer` cuts texts as C11 6.4 says, over the standard's examples and the language's own words,
//! and that a text of any length takes linear time.
use crate::reading::{Reading, are_read, tokens_of};
use c_lexer::{LexFault, Token};
use std::alloc::Global;

/// Adds a token: its kind, place, length and spelling.
fn push_token(alloc: Global, shown: &mut String, token: &Token) -> Option<()> {
    let (kind, at, len, text) = (token.kind, token.at, token.len, token.text.as_str());
    let one = format!(in alloc; " {kind:?} {at}+{len} {text},").ok()?;
    shown.push_str(&one).ok()
}

/// How many tokens there are, and each if they are few.
fn tokens_shown(alloc: Global, tokens: &[Token]) -> Option<String> {
    let count = tokens.len();
    let mut shown = format!(in alloc; "{count}:").ok()?;
    if count > 16 {
        return Some(shown);
    }
    for token in tokens {
        push_token(alloc, &mut shown, token)?;
    }
    Some(shown)
}

/// The same of a text, or its fault.
pub fn shown(alloc: Global, text: &str) -> Option<String> {
    match tokens_of(alloc, text.as_bytes()) {
        Ok(tokens) => {
            let shown = tokens_shown(alloc, &tokens);
            drop(tokens);
            shown
        }
        Err(fault) => format!(in alloc; "{fault:?}").ok(),
    }
}

/// Texts with their tokens, by C11 6.4: the examples of 6.4p6, 6.4.9p3 and 6.4.6, and the language's own words.
static TEXTS: &str = "\
    \x20=> 0:¶\
    \x20\t\n\u{b}\u{c}\r => 0:¶\
    x+++++y => 5: Identifier 0+1 x, Punctuator 1+2 ++, Punctuator 3+2 ++, Punctuator 5+1 +, Identifier 6+1 y,¶\
    \"a//b\" // i();\nf = g/**//h; => 7: Str 0+6 \"a//b\", Identifier 15+1 f, Punctuator 17+1 =, Identifier 19+1 g, Punctuator 24+1 /, Identifier 25+1 h, Punctuator 26+1 ;,¶\
    /*//*/ l /* * / **/ => 1: Identifier 7+1 l,¶\
    a<<=b->c>=d-- => 8: Identifier 0+1 a, Punctuator 1+3 <<=, Identifier 4+1 b, Punctuator 5+2 ->, Identifier 7+1 c, Punctuator 8+2 >=, Identifier 10+1 d, Punctuator 11+2 --,¶\
    'a' '\\'' '\\0' '\"' => 4: Character 0+3 'a', Character 4+4 '\\'', Character 9+4 '\\0', Character 14+3 '\"',¶\
    \"\\\"\\\\\t'\" \"caf\u{e9} \u{1f600}\" => 2: Str 0+8 \"\\\"\\\\\t'\", Str 9+12 \"caf\u{e9} \u{1f600}\",¶\
    0 7 017 0x1fUL 42lu 9223372036854775807 => 6: Number 0+1 0, Number 2+1 7, Number 4+3 017, Number 8+6 0x1fUL, Number 15+4 42lu, Number 20+19 9223372036854775807,¶\
    while _While thrd_t thrd_tt => 4: Keyword 0+5 while, Identifier 6+6 _While, LibraryWord 13+6 thrd_t, Identifier 20+7 thrd_tt,¶\
    \u{e9}\u{301}9 1.5 => 4: Identifier 0+5 \u{e9}\u{301}9, Number 6+1 1, Punctuator 7+1 ., Number 8+1 5,¶\
    \x20#include\t<threads.h> /* \" */ \r\n#include\"dsu.h\"// x\r\nx => 1: Identifier 53+1 x,¶\
    \u{b}#include <stdlib.h> => 0:¶\
    int/**/x => 2: Keyword 0+3 int, Identifier 7+1 x,";

#[test]
fn texts_have_their_tokens(rt: HostRuntime) {
    are_read(&rt, rt.alloc(), Reading::Tokens, TEXTS);
}

/// Texts with their first faults.
static FAULTS: &str = "\
    int x = 08; => BadLiteral(8)¶\
    /* open => BadByte(0)¶\
    a/*/ => BadByte(1)¶\
    #define A => Directive(0)¶\
    \x20\t#include <stdio.h> x => Directive(2)¶\
    # include <stdio.h> => Directive(0)¶\
    #include <math.h> => Directive(0)¶\
    #include <stdio.h => Directive(0)¶\
    #include <stdio.h> /* a */ /* b */ => Directive(0)¶\
    #include <stdio.h> /* a\n*/ => Directive(0)¶\
    #include <stdio.h>\r\r\n => Directive(0)¶\
    #include\u{b}<stdio.h> => Directive(0)¶\
    #includes <stdio.h> => Directive(0)¶\
    /**/ #include <stdio.h> => BadByte(5)¶\
    x # => BadByte(2)¶\
    a $ 08 => BadByte(2)¶\
    a @ => BadByte(2)¶\
    a \\ => BadByte(2)¶\
    a\0 => BadByte(1)¶\
    \u{d7} => BadByte(0)¶\
    \u{301}a => BadByte(0)¶\
    12ab => BadLiteral(0)¶\
    0x => BadLiteral(0)¶\
    1ull => BadLiteral(0)¶\
    0xfg => BadLiteral(0)¶\
    1\u{e9} => BadLiteral(0)¶\
    18446744073709551616u => BadLiteral(0)¶\
    '' => BadLiteral(0)¶\
    ' => BadLiteral(0)¶\
    'ab' => BadLiteral(0)¶\
    '\u{e9}' => BadLiteral(0)¶\
    '\n' => BadLiteral(0)¶\
    a \"\\0\" => BadLiteral(2)";

/// Bytes that are no UTF-8, with their first faults.
static NO_TEXTS: [(&[u8], LexFault); 2] = [
    (b"a\xc3", LexFault::BadByte(1)),
    (b"\"\xff\"", LexFault::BadLiteral(0)),
];

#[test]
fn faults_stand_at_their_places(rt: HostRuntime) {
    are_read(&rt, rt.alloc(), Reading::Tokens, FAULTS);
    for (bytes, fault) in &NO_TEXTS {
        let found = tokens_of(rt.alloc(), bytes).err();
        assert!(rt; found == Some(*fault), "{fault:?}");
    }
}

/// Long texts, and how many tokens each has, or its fault. The first four have as many tokens as a text may have, or one more: a
/// fault comes before a token too many. The others are one byte 1,048,576 times: such a text takes linear time.
static LONG: &str = "\
    `65536 ;` => 65536:¶\
    `21842 int x;\n`int x, y; int x, y; => 65536:¶\
    `65536 ;`$ => BadByte(65536)¶\
    `65536 ;`;$; => TooMany(65536)¶\
    `65536                 ` => 0:¶\
    `65536 1111111111111111` => BadLiteral(0)¶\
    `65536 xxxxxxxxxxxxxxxx` => 1:¶\
    `65536 ////////////////` => 0:¶\
    `65536 ''''''''''''''''` => BadLiteral(0)¶\
    `65536 \"\"\"\"\"\"\"\"\"\"\"\"\"\"\"\"` => TooMany(131072)";

#[test]
fn long_texts_take_linear_time(rt: HostRuntime) {
    are_read(&rt, rt.alloc(), Reading::Tokens, LONG);
}
