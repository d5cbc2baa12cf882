//! Names that nothing declares, and those that are declared twice.
use c_lexer::{Token, TokenKind};
use c_tree::{DefKind, Program};
use dsu_report::place_of;
use std::alloc::{AllocError, Global};
use strsim::levenshtein;
use type_notes::Draft;

/// Names of more bytes than this aren't compared.
const LONGEST_COMPARED: usize = 64;

/// What a name is that nothing declares, with the nearest one that the text declares.
pub(crate) fn unknown_name(
    alloc: Global,
    tokens: &[Token],
    program: &Program,
    number: usize,
) -> Result<Draft, AllocError> {
    let Some(token) = tokens.get(number) else {
        return Draft::of(alloc, "nothing declares this name");
    };
    let word = token.text.as_str();
    let mut draft = Draft::new(alloc);
    if has_prototype(program, word) {
        draft.word(word);
        draft.say(" has a prototype, and the text doesn't define it");
        return draft.done();
    }
    draft.say("nothing declares ");
    draft.word(word);
    say_nearest(
        &mut draft,
        nearest(alloc, tokens, word, sort_at(tokens, number))?,
    );
    draft.done()
}

/// Says which name may be meant.
fn say_nearest(draft: &mut Draft, nearest: Option<&str>) {
    if let Some(name) = nearest {
        draft.say("; is ");
        draft.word(name);
        draft.say(" meant?");
    }
}

/// Whether a prototype declares a function with a name.
fn has_prototype(program: &Program, word: &str) -> bool {
    for one in program.definitions.as_slice() {
        if let DefKind::Prototype(prototype) = &one.kind {
            if prototype.name.text.as_str() == word {
                return true;
            }
        }
    }
    false
}

/// What a name is written as: after `struct`, after `->` or `.`, or otherwise.
#[derive(Clone, Copy, PartialEq, Eq)]
enum Sort {
    Tag,
    Field,
    Plain,
}

/// The spelling of the token before one.
fn before(tokens: &[Token], number: usize) -> &str {
    match number.checked_sub(1) {
        Some(previous) => match tokens.get(previous) {
            Some(token) => token.text.as_str(),
            None => "",
        },
        None => "",
    }
}

/// As what the name of a number is written.
fn sort_at(tokens: &[Token], number: usize) -> Sort {
    match before(tokens, number) {
        "struct" => Sort::Tag,
        "->" | "." => Sort::Field,
        _ => Sort::Plain,
    }
}

/// Whether a word is one of those before the name of a variable, a field, a parameter or a function.
fn is_type_word(word: &str) -> bool {
    matches!(
        word,
        "char" | "int" | "long" | "short" | "signed" | "unsigned" | "void" | "thrd_t" | "mtx_t"
    )
}

/// Whether the token of a number is a name that is declared there, by the token before it.
fn is_declared(tokens: &[Token], number: usize) -> bool {
    match tokens.get(number) {
        Some(token) => {
            token.kind == TokenKind::Identifier && declares(tokens, number, before(tokens, number))
        }
        None => false,
    }
}

/// Whether a name is declared after a word.
fn declares(tokens: &[Token], number: usize, word: &str) -> bool {
    if word == "*" {
        let tag = number.saturating_sub(2);
        return sort_at(tokens, tag) == Sort::Tag;
    }
    word == "struct" || is_type_word(word)
}

/// How many edits a name may be away from a word to be its nearest: none from a word of one or two bytes.
fn most_edits(word: &str) -> usize {
    if word.len() < 3 {
        0
    } else {
        1 + word.len() / 4
    }
}

/// The name that the text declares that is nearest to a word and is written as it is.
fn nearest<'a>(
    alloc: Global,
    tokens: &'a [Token],
    word: &str,
    sort: Sort,
) -> Result<Option<&'a str>, AllocError> {
    let mut found = None;
    let mut least = most_edits(word).saturating_add(1);
    if word.len() > LONGEST_COMPARED {
        return Ok(None);
    }
    for number in 0..tokens.len() {
        if is_declared(tokens, number)
            && (sort_at(tokens, number) == Sort::Tag) == (sort == Sort::Tag)
        {
            let name = tokens[number].text.as_str();
            let edits = edits_between(alloc, name, word)?;
            if edits < least {
                least = edits;
                found = Some(name);
            }
        }
    }
    Ok(found)
}

/// How many edits lead from one name to another, and more than any if they are equal or one is long.
fn edits_between(alloc: Global, name: &str, word: &str) -> Result<usize, AllocError> {
    if name.len() > LONGEST_COMPARED || name == word {
        return Ok(usize::MAX);
    }
    levenshtein(alloc, name, word)
}

/// Where a name that is declared twice is declared before.
pub(crate) fn declared_twice(
    alloc: Global,
    text: &[u8],
    tokens: &[Token],
    number: usize,
) -> Result<Draft, AllocError> {
    let Some(token) = tokens.get(number) else {
        return Draft::of(alloc, "this is declared before");
    };
    let mut draft = Draft::new(alloc);
    draft.word(token.text.as_str());
    match first_of(tokens, number, token.text.as_str()) {
        Some(at) if at <= text.len() && at < u32::MAX as usize => {
            draft.say(" is declared in line ");
            draft.number(place_of(text, at).line as usize);
            draft.say(" too");
        }
        _ => draft.say(" is declared before"),
    }
    draft.done()
}

/// The place of the first token before one with the same word that is declared there.
fn first_of(tokens: &[Token], number: usize, word: &str) -> Option<usize> {
    let sort = sort_at(tokens, number);
    for place in 0..number.min(tokens.len()) {
        if is_declared(tokens, place)
            && tokens[place].text.as_str() == word
            && sort_at(tokens, place) == sort
        {
            return Some(tokens[place].at);
        }
    }
    None
}

/// What a field is that its struct doesn't have, with the nearest name of the text.
pub(crate) fn unknown_field(
    alloc: Global,
    tokens: &[Token],
    number: usize,
) -> Result<Draft, AllocError> {
    let Some(token) = tokens.get(number) else {
        return Draft::of(alloc, "the struct has no such field");
    };
    let word = token.text.as_str();
    let mut draft = Draft::of(alloc, "the struct has no field ")?;
    draft.word(word);
    say_nearest(&mut draft, nearest(alloc, tokens, word, Sort::Field)?);
    draft.done()
}
