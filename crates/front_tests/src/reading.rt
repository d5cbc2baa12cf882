//! Rows of texts with what is read of them, which one loop walks for all tests, and the calls that several tests make. Each call
//! of a crate is in one function: what it promises is dear to carry along in each caller.
//!
//! A row is a text, ` => ` and what is read of the text, as it is printed, or the beginning of that. `¶` separates rows. In a
//! text, a part between backquotes is a count and a piece that is repeated so often: `` `64 (` ``. A table of as many texts as
//! there are rows would be dear to prove.
//!
//! What owns a tree or tokens is dropped by a call of `drop`: at the end of a scope its whole destructor is part of the proof.
use crate::{expressions, lexer, programs, texts, trees, types};
use c_expr_parser::SyntaxFault;
use c_lexer::{LexFault, Token, lex};
use c_parser::parse;
use c_tree::Program;
use std::alloc::Global;
use std::process::Abort;

/// What a text is read as.
#[derive(Clone, Copy)]
pub enum Reading {
    /// Tokens.
    Tokens,
    /// An expression at a depth.
    Expression(u32),
    /// Two expressions, separated by ` <=> `.
    Pair,
    /// A program, by the number of its definitions.
    Count,
    /// A program, by its definitions.
    Definitions,
    /// A program whose types are checked.
    Types,
    /// The same, by the call for whole texts.
    Text,
    /// A name in a fixed program.
    Name,
}

/// What a text is read as, printed, or `None` when out of memory or where an earlier step has a fault.
fn shown(alloc: Global, reading: Reading, text: &str) -> Option<String> {
    match reading {
        Reading::Tokens => lexer::shown(alloc, text),
        Reading::Expression(depth) => expressions::shown(alloc, text, depth),
        Reading::Pair => expressions::pair_shown(alloc, text),
        Reading::Count => programs::count_shown(alloc, text),
        Reading::Definitions => trees::shown(alloc, text),
        Reading::Types => types::shown(alloc, text),
        Reading::Text => texts::shown(alloc, text),
        Reading::Name => types::name_shown(alloc, text),
    }
}

/// Adds a piece as often as the count before it says.
fn push_often(alloc: Global, text: &mut String, part: &str) -> Option<()> {
    let (count, piece) = part.split_once(" ")?;
    let count = count.parse::<usize>().ok()?;
    let pieces = piece.repeat(alloc, count).ok()?;
    text.push_str(&pieces).ok()
}

/// A text with its repeated pieces written out.
fn expanded(alloc: Global, text: &str) -> Option<String> {
    let mut whole = String::new(alloc);
    let mut is_counted = false;
    for part in text.split('`') {
        if is_counted {
            push_often(alloc, &mut whole, part)?;
        } else {
            whole.push_str(part).ok()?;
        }
        is_counted = !is_counted;
    }
    Some(whole)
}

/// Whether what is read of a row's text begins as the row says.
fn is_read(alloc: Global, reading: Reading, row: &str) -> Option<bool> {
    let (text, want) = row.split_once(" => ")?;
    let text = expanded(alloc, text)?;
    let found = shown(alloc, reading, &text)?;
    Some(found.as_str().starts_with(want))
}

/// Stops the test at the first of some rows that is read otherwise.
pub fn are_read(rt: &impl Abort, alloc: Global, reading: Reading, rows: &str) {
    for row in rows.split('¶') {
        assert!(rt; is_read(alloc, reading, row) == Some(true), "{row}");
    }
}

/// The same of the rows of a table.
pub fn all_are_read(rt: &impl Abort, alloc: Global, reading: Reading, table: &[&str]) {
    for rows in table {
        are_read(rt, alloc, reading, rows);
    }
}

/// The tokens of a text.
pub fn tokens_of(alloc: Global, text: &[u8]) -> Result<Vec<Token>, LexFault> {
    lex(alloc, text)
}

/// The program that some tokens are, in a text of so many bytes.
pub fn program_of(alloc: Global, tokens: &[Token], end: usize) -> Result<Program, SyntaxFault> {
    parse(alloc, tokens, end)
}

/// The program that a text is.
pub fn program_in(alloc: Global, text: &str) -> Option<Program> {
    let tokens = tokens_of(alloc, text.as_bytes()).ok()?;
    let program = program_of(alloc, &tokens, text.len());
    drop(tokens);
    program.ok()
}
