ghost use Rattle.std.specs.Prelude.{◌<◌, ◌≤◌, ◌+◌, length, IfOk};
ghost use Rattle.c_expr_parser.specs.Readings.{most_depth};
ghost use Rattle.c_parser.specs.TextPlans.{Statement, statement, found, text_parsed, text_reads, FindsText};
ghost use Rattle.c_parser.specs.Parts.{word_plan};

use crate::block::{braces, transaction};
use crate::control::{do_statement, for_statement, if_statement, while_statement};
use crate::opening::{Opening, StatementWord, opening_of};
use crate::simple::{evaluate, made, return_statement, simple, update};
use c_expr_parser::parts::{Stop, shallow};
use c_lexer::Token;
use c_tree::{Stmt, StmtNode};
use std::alloc::Global;

/// A statement (6.8).
#[cycle(statement)]
pub fn statement<'a>(
    alloc: Global,
    tokens: &'a [Token],
    depth: u32,
) -> Result<(Stmt, &'a [Token]), Stop>
    requires { depth ≤ most_depth + 1 }
    ensures reads { FindsText (text_reads (Statement depth) tokens.now) (λ x. found (statement x.0) x.1.now) result }
    ensures within { IfOk result (λ x. length x.1.now < length tokens.now) }
{
    let Some((first, rest)) = tokens.split_first() else {
        return Err(Stop::Stuck(0));
    };
    let Some(opening) = opening_of(first) else {
        return evaluate(alloc, first.at, tokens, depth);
    };
    shallow(tokens, depth)?;
    match opening {
        Opening::Begun(word) => begun(alloc, word, first.at, rest, depth),
        Opening::Update => update(first.at, rest, depth),
        Opening::Transaction => transaction(alloc, first.at, rest, depth),
        Opening::Brace => braces(alloc, first.at, rest, depth),
        Opening::Semicolon => Ok((made(first.at, StmtNode::Empty), rest)),
    }
}

/// The rest of a statement after the word that begins it at a place.
#[cycle(statement)]
fn begun<'a>(
    alloc: Global,
    word: StatementWord,
    start: usize,
    tokens: &'a [Token],
    depth: u32,
) -> Result<(Stmt, &'a [Token]), Stop>
    requires { depth ≤ most_depth }
    ensures reads { FindsText (text_parsed (word_plan depth start word) tokens.now) (λ x. found (statement x.0) x.1.now) result }
    ensures within { IfOk result (λ x. length x.1.now < length tokens.now) }
{
    match word {
        StatementWord::If => if_statement(alloc, start, tokens, depth),
        StatementWord::While => while_statement(alloc, start, tokens, depth),
        StatementWord::Do => do_statement(alloc, start, tokens, depth),
        StatementWord::For => for_statement(alloc, start, tokens, depth),
        StatementWord::Break => simple(start, StmtNode::Break, tokens, depth),
        StatementWord::Continue => simple(start, StmtNode::Continue, tokens, depth),
        StatementWord::Return => return_statement(alloc, start, tokens, depth),
    }
}
