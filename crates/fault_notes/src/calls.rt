//! Calls with the wrong number of arguments, and formats that don't fit theirs.
use c_lexer::{Token, TokenKind};
use c_tree::{DefKind, Program};
use std::alloc::{AllocError, Global};
use type_notes::Draft;

/// How many arguments a function takes and how many a call of it gives. The token of the number is the function's name.
pub(crate) fn wrong_count(
    alloc: Global,
    tokens: &[Token],
    program: &Program,
    number: usize,
) -> Result<Draft, AllocError> {
    let Some(token) = tokens.get(number) else {
        return Draft::of(alloc, "the function takes another number of arguments");
    };
    let word = token.text.as_str();
    let given = arguments_from(tokens, number.saturating_add(2));
    let mut draft = Draft::new(alloc);
    draft.word(word);
    match parameters_of(program, word) {
        Some(taken) => {
            draft.say(" takes ");
            draft.count(taken, "argument");
        }
        None => draft.say(" takes another number of arguments"),
    }
    draft.say(", and ");
    draft.number(given);
    draft.say(if given == 1 {
        " is given"
    } else {
        " are given"
    });
    draft.done()
}

/// How many parameters the function with a name has.
fn parameters_of(program: &Program, word: &str) -> Option<usize> {
    for one in program.definitions.as_slice() {
        if let DefKind::Function(function) = &one.kind {
            if function.name.text.as_str() == word {
                return Some(function.parameters.as_slice().len());
            }
        }
    }
    None
}

/// How a token changes how many brackets are open.
#[derive(Clone, Copy, PartialEq, Eq)]
enum Bracket {
    Opens,
    Closes,
    Neither,
}

fn bracket_of(word: &str) -> Bracket {
    match word {
        "(" | "[" | "{" => Bracket::Opens,
        ")" | "]" | "}" => Bracket::Closes,
        _ => Bracket::Neither,
    }
}

/// How many commas come from a token on before the bracket that closes what is open there, and how many tokens.
#[derive(Clone, Copy)]
struct Counted {
    commas: usize,
    tokens: usize,
}

fn count_from(tokens: &[Token], first: usize) -> Counted {
    let mut open: usize = 0;
    let mut found = Counted {
        commas: 0,
        tokens: 0,
    };
    for number in first..tokens.len() {
        let word = tokens[number].text.as_str();
        match bracket_of(word) {
            Bracket::Opens => open = open.saturating_add(1),
            Bracket::Closes => {
                if open == 0 {
                    return found;
                }
                open -= 1;
            }
            Bracket::Neither => {
                if open == 0 && word == "," {
                    found.commas = found.commas.saturating_add(1);
                }
            }
        }
        found.tokens = found.tokens.saturating_add(1);
    }
    found
}

/// How many arguments come from a token on, up to the bracket that closes them.
fn arguments_from(tokens: &[Token], first: usize) -> usize {
    let found = count_from(tokens, first);
    if found.tokens == 0 {
        0
    } else {
        found.commas.saturating_add(1)
    }
}

/// Where the reading of a format is.
#[derive(Clone, Copy)]
enum Reading {
    Plain,
    Percent,
    Long,
}

/// The conversions of a format.
#[derive(Clone, Copy)]
struct Conversions {
    /// How many of them take an argument.
    count: usize,
    /// Whether there is one that isn't allowed.
    has_other: bool,
}

/// What a further byte makes of the conversions that were read.
fn read_byte(found: &mut Conversions, reading: Reading, byte: u8) -> Reading {
    match (reading, byte) {
        (Reading::Plain, b'%') => Reading::Percent,
        (Reading::Plain, _) | (Reading::Percent, b'%') => Reading::Plain,
        (Reading::Percent, b'l') => Reading::Long,
        (Reading::Percent | Reading::Long, b'd' | b'u') => {
            found.count = found.count.saturating_add(1);
            Reading::Plain
        }
        (Reading::Percent | Reading::Long, _) => {
            found.has_other = true;
            Reading::Plain
        }
    }
}

/// Reads a piece of a format.
fn read_piece(found: &mut Conversions, piece: &str) {
    let mut reading = Reading::Plain;
    for byte in piece.as_bytes() {
        reading = read_byte(found, reading, *byte);
    }
}

/// The conversions of the strings from a token on.
fn conversions_from(tokens: &[Token], first: usize) -> Conversions {
    let mut found = Conversions {
        count: 0,
        has_other: false,
    };
    for number in first..tokens.len() {
        if tokens[number].kind != TokenKind::Str {
            return found;
        }
        read_piece(&mut found, tokens[number].text.as_str());
    }
    found
}

/// What is wrong with a format and its arguments. The token of the number is its first string.
pub(crate) fn bad_format(
    alloc: Global,
    tokens: &[Token],
    number: usize,
) -> Result<Draft, AllocError> {
    let found = conversions_from(tokens, number);
    let given = count_from(tokens, number).commas;
    if found.has_other {
        return Draft::of(
            alloc,
            "a format has the conversions %d, %u, %ld, %lu and %%, and no others",
        );
    }
    if found.count == given {
        return Draft::of(
            alloc,
            "%d takes an int, %u an unsigned int, %ld a long and %lu an unsigned long, and an argument has another type",
        );
    }
    let mut draft = Draft::of(alloc, "the format has ")?;
    draft.count(found.count, "conversion");
    draft.say(", and ");
    draft.count(given, "argument");
    draft.say(if given == 1 {
        " comes after it"
    } else {
        " come after it"
    });
    draft.done()
}
