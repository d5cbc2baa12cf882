//! What is wrong with a tree.
use crate::calls::{bad_format, wrong_count};
use crate::limits::over_limit;
use crate::names::{declared_twice, unknown_field, unknown_name};
use crate::syntax::number_at;
use c_lexer::{Token, lex};
use c_parser::parse;
use c_tree::Program;
use c_types::TypeKind;
use std::alloc::{AllocError, Global};
use type_notes::{Draft, wrong_type};

/// The tokens and the tree of a text.
#[derive(Drop)]
struct Read {
    tokens: Vec<Token>,
    program: Program,
}

/// Reads the text once more.
fn read_again(alloc: Global, text: &[u8]) -> Result<Read, AllocError> {
    let Ok(tokens) = lex(alloc, text) else {
        return Err(AllocError);
    };
    match parse(alloc, &tokens, text.len()) {
        Ok(program) => Ok(Read { tokens, program }),
        Err(_) => Err(AllocError),
    }
}

/// What is wrong at a place.
pub(crate) fn types(
    alloc: Global,
    text: &[u8],
    kind: TypeKind,
    at: usize,
) -> Result<Draft, AllocError> {
    let read = read_again(alloc, text)?;
    let number = number_at(&read.tokens, at);
    match kind {
        TypeKind::UnknownName => unknown_name(alloc, &read.tokens, &read.program, number),
        TypeKind::DeclaredTwice => declared_twice(alloc, text, &read.tokens, number),
        TypeKind::WrongCount => wrong_count(alloc, &read.tokens, &read.program, number),
        TypeKind::BadFormat => bad_format(alloc, &read.tokens, number),
        TypeKind::OverLimit => over_limit(alloc, &read.program, at),
        TypeKind::UnknownField => unknown_field(alloc, &read.tokens, number),
        TypeKind::WrongType => wrong_type(alloc, &read.program, at),
        TypeKind::NotPlace
        | TypeKind::OutsideLoop
        | TypeKind::NoMain
        | TypeKind::LeavesTransaction
        | TypeKind::BadTransformer => of_word(alloc, kind, read.tokens.get(number)),
    }
}

/// What is wrong with the token at the place.
fn of_word(alloc: Global, kind: TypeKind, found: Option<&Token>) -> Result<Draft, AllocError> {
    let mut draft = Draft::new(alloc);
    let Some(token) = found else {
        draft.say("the text defines no 'int main(void)'");
        return draft.done();
    };
    draft.word(token.text.as_str());
    draft.say(rule_of(kind));
    draft.done()
}

/// The rule that is broken, said of the word at the place.
fn rule_of(kind: TypeKind) -> &'static str {
    match kind {
        TypeKind::NotPlace =>
            " begins no variable, element or field: only these can be assigned and stepped",
        TypeKind::OutsideLoop => " needs a loop around it",
        TypeKind::NoMain => " is to be a function without parameters that returns int",
        TypeKind::LeavesTransaction => " would leave the dsu_tx block",
        TypeKind::BadTransformer => {
            " begins a transformer of nothing that the text defines, or one with a name other than old or an operator that may trap"
        }
        _ => " can't be here",
    }
}
