//! What could have come in place of a token.
use crate::following::expected;
use c_lexer::{Token, TokenKind, lex};
use c_parser::parse;
use std::alloc::{AllocError, Global};
use type_notes::Draft;

/// The tokens that are tried at the place of a fault: one of each sort.
const CANDIDATES: &[u8] =
    b"; , ) ] } : = ( [ { -> & / * else while struct void sizeof mtx_plain \"\" x 1 int if";

/// The places among these of the ones that stand for a whole sort, or that another one implies.
const SEMICOLON: usize = 0;

const PARENTHESIS: usize = 7;

const BRACE: usize = 9;

const AMPERSAND: usize = 11;

const OPERATOR: usize = 12;

const STAR: usize = 13;

const WHILE: usize = 15;

const STRUCT: usize = 16;

const VOID: usize = 17;

const STRING: usize = 20;

const NAME: usize = 21;

const NUMBER: usize = 22;

const TYPE: usize = 23;

const STATEMENT: usize = 24;

/// The keywords of C that the grammar uses.
const USED: [&str; 18] = [
    "break", "char", "continue", "do", "else", "for", "if", "int", "long", "return", "short",
    "signed", "sizeof", "static", "struct", "unsigned", "void", "while",
];

/// What is wrong at the token of a number, or at the end of the text: which token is there, and what could be.
pub(crate) fn syntax(alloc: Global, text: &[u8], at: usize) -> Result<Draft, AllocError> {
    let Ok(tokens) = lex(alloc, text) else {
        return Err(AllocError);
    };
    let number = number_at(&tokens, at);
    let mut draft = Draft::new(alloc);
    if say_found(&mut draft, tokens.get(number)) {
        return draft.done();
    }
    say_expected(alloc, &mut draft, tokens, number)?;
    draft.done()
}

/// The number of the token at a byte; how many there are if none is there.
pub(crate) fn number_at(tokens: &[Token], at: usize) -> usize {
    for number in 0..tokens.len() {
        if tokens[number].at >= at {
            return number;
        }
    }
    tokens.len()
}

/// Says which token is there; the answer is whether that is all, since it is a word of C that is left out.
fn say_found(draft: &mut Draft, found: Option<&Token>) -> bool {
    let Some(token) = found else {
        draft.say("the text ends here");
        return false;
    };
    let word = token.text.as_str();
    if token.kind == TokenKind::Keyword && !USED.contains(&word) {
        draft.word(word);
        draft.say(" is left out of this C: see docs/language.md");
        return true;
    }
    draft.word(word);
    draft.say(" doesn't fit");
    false
}

/// Says what could have come at the token of a number.
fn say_expected(
    alloc: Global,
    draft: &mut Draft,
    tokens: Vec<Token>,
    number: usize,
) -> Result<(), AllocError> {
    let mut before = tokens;
    let is_end = number >= before.len();
    before.truncate(number);
    let may_end = !is_end && is_program(alloc, &before)?;
    let fits = expected(alloc, before, candidates(alloc)?)?;
    let spelled = candidates(alloc)?;
    say_choices(draft, &fits, &spelled, may_end)
}

/// The tokens that are tried.
fn candidates(alloc: Global) -> Result<Vec<Token>, AllocError> {
    match lex(alloc, CANDIDATES) {
        Ok(tokens) => Ok(tokens),
        Err(_) => Err(AllocError),
    }
}

/// Whether some tokens are a program.
fn is_program(alloc: Global, tokens: &[Token]) -> Result<bool, AllocError> {
    match parse(alloc, tokens, 0) {
        Ok(_) => Ok(true),
        Err(c_expr_parser::SyntaxFault::Memory) => Err(AllocError),
        Err(_) => Ok(false),
    }
}

/// Whether the candidate at a place fits.
fn fits_at(fits: &[bool], place: usize) -> bool {
    match fits.get(place) {
        Some(fits) => *fits,
        None => false,
    }
}

/// Whether a candidate that fits is implied by another one that does.
fn is_implied(fits: &[bool], place: usize) -> bool {
    let statement = fits_at(fits, STATEMENT);
    let expression = fits_at(fits, NAME) && fits_at(fits, NUMBER);
    match place {
        SEMICOLON | BRACE | WHILE => statement,
        PARENTHESIS => expression,
        AMPERSAND | STAR => fits_at(fits, OPERATOR),
        STRUCT | VOID => fits_at(fits, TYPE),
        NAME => expression,
        NUMBER => statement,
        _ => false,
    }
}

/// The places of the candidates that are said.
fn choices(alloc: Global, fits: &[bool]) -> Result<Vec<usize>, AllocError> {
    let mut places = Vec::new(alloc);
    for place in 0..fits.len() {
        if fits[place] && !is_implied(fits, place) {
            places.push(place)?;
        }
    }
    Ok(places)
}

/// Says the candidates that fit, the last one after an `or`.
fn say_choices(
    draft: &mut Draft,
    fits: &[bool],
    spelled: &[Token],
    may_end: bool,
) -> Result<(), AllocError> {
    let places = choices(draft.alloc(), fits)?;
    let many = places.len().saturating_add(usize::from(may_end));
    for index in 0..places.len() {
        draft.say(before_choice(index, many));
        say_choice(draft, fits, spelled, places[index]);
    }
    if may_end {
        draft.say(before_choice(places.len(), many));
        draft.say("the end of the text");
    }
    Ok(())
}

/// What comes before a choice, by its place among the choices.
fn before_choice(index: usize, many: usize) -> &'static str {
    if index == 0 {
        "; expected "
    } else if index.saturating_add(1) == many {
        " or "
    } else {
        ", "
    }
}

/// Says a candidate.
fn say_choice(draft: &mut Draft, fits: &[bool], spelled: &[Token], place: usize) {
    match place {
        OPERATOR => draft.say("an operator"),
        STRING => draft.say("a string"),
        NAME => draft.say("a name"),
        NUMBER => draft.say(if fits_at(fits, NAME) {
            "an expression"
        } else {
            "a number"
        }),
        TYPE => draft.say("a type"),
        STATEMENT => draft.say("a statement"),
        _ => match spelled.get(place) {
            Some(token) => draft.word(token.text.as_str()),
            None => {}
        },
    }
}
