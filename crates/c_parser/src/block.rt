ghost use Rattle.std.specs.Prelude.{◌≡◌, ◌<◌, ◌≤◌, ◌+◌, ℕ, false, length, codes, [], IfOk, List};
ghost use Rattle.c_lexer.specs.declared.token.TokenKind.TheVariants.{Punctuator};
ghost use Rattle.c_tree.specs.declared.stmt.Stmt.{Stmt};
ghost use Rattle.c_expr_parser.specs.Readings.{most_depth};
ghost use Rattle.c_expr_parser.specs.Tables.{is, holds_ahead};
ghost use Rattle.c_parser.specs.TextPlans.{Found, TextPlan, Want, Place, place, statement, found, block_then, block, transaction, text_parsed, FindsText};
ghost use Rattle.c_parser.specs.Parts.{items_then};

use crate::ahead::is_ahead;
use crate::declaration::declaration;
use crate::push::push;
use crate::simple::made;
use crate::statement::statement;
use c_expr_parser::parts::{MOST_DEPTH, Stop, begins_type, is, take, type_name};
use c_lexer::{Token, TokenKind};
use c_tree::{Stmt, StmtNode};
use dsu_io::List;
use std::alloc::Global;

/// What stands between braces, and the place of the closing one.
#[derive(Drop)]
pub struct Braced {
    pub body: List<Stmt>,
    pub end: usize,
}

/// A closing brace's place, and the tokens after it.
pub fn closing_brace(tokens: &[Token], depth: u32) -> Result<(usize, &[Token]), Stop>
    ensures reads { (k : Found → TextPlan) → FindsText (text_parsed (Want (Place (codes "}") depth) k) tokens.now) (λ x. text_parsed (k (place x.0)) x.1.now) result }
    ensures within { IfOk result (λ x. length x.1.now < length tokens.now) }
{
    match tokens.split_first() {
        Some((token, rest)) => {
            if !is(token, TokenKind::Punctuator, "}") {
                Err(Stop::Stuck(tokens.len()))
            } else if depth > MOST_DEPTH {
                Err(Stop::Deep(tokens.len()))
            } else {
                Ok((token.at, rest))
            }
        }
        None => Err(Stop::Stuck(0)),
    }
}

/// What stands between braces (6.8.2), up to the closing one, after the open one.
#[cycle(statement)]
pub fn block<'a>(
    alloc: Global,
    tokens: &'a [Token],
    depth: u32,
) -> Result<(Braced, &'a [Token]), Stop>
    requires { depth ≤ most_depth }
    ensures reads { (k : List Stmt → ℕ → TextPlan) → FindsText (text_parsed (block_then depth k) tokens.now) (λ x. text_parsed (k x.0.body x.0.end) x.1.now) result }
    ensures within { IfOk result (λ x. length x.1.now < length tokens.now) }
{
    let mut list = Vec::new(alloc);
    let mut rest = tokens;
    while !is_ahead(rest, TokenKind::Punctuator, "}") {
        let (longer, behind) = block_item(alloc, list, rest, depth)?;
        list = longer;
        rest = behind;
    }
    let (end, rest) = closing_brace(rest, depth)?;
    let body = List::of(list);
    Ok((Braced { body, end }, rest))
}

/// One declaration or statement of a block of a depth, added to those before.
#[cycle(statement)]
fn block_item<'a>(
    alloc: Global,
    before: Vec<Stmt>,
    tokens: &'a [Token],
    depth: u32,
) -> Result<(Vec<Stmt>, &'a [Token]), Stop>
    requires { depth ≤ most_depth }
    ensures reads { holds_ahead (is Punctuator (codes "}")) tokens.now ≡ false → (k : List Stmt → ℕ → TextPlan) → FindsText (text_parsed (items_then depth before.items k) tokens.now) (λ x. text_parsed (items_then depth x.0.items k) x.1.now) result }
    ensures within { IfOk result (λ x. length x.1.now < length tokens.now) }
{
    let Some((first, _)) = tokens.split_first() else {
        return Err(Stop::Stuck(0));
    };
    if begins_type(first) {
        let (declared, rest) = type_name(tokens, depth + 1)?;
        return declaration(alloc, before, first.at, &declared, rest, depth + 1);
    }
    let (next, rest) = statement(alloc, tokens, depth + 1)?;
    let mut list = before;
    push(&mut list, next)?;
    Ok((list, rest))
}

/// The rest of a block after its open brace, as a statement.
#[cycle(statement)]
pub fn braces<'a>(
    alloc: Global,
    start: usize,
    tokens: &'a [Token],
    depth: u32,
) -> Result<(Stmt, &'a [Token]), Stop>
    requires { depth ≤ most_depth }
    ensures reads { FindsText (text_parsed (block depth start) tokens.now) (λ x. found (statement x.0) x.1.now) result }
    ensures within { IfOk result (λ x. length x.1.now < length tokens.now) }
{
    let (block, rest) = block(alloc, tokens, depth)?;
    Ok((made(start, StmtNode::Block(block.body)), rest))
}

/// The rest of `dsu_tx { .. }`.
#[cycle(statement)]
pub fn transaction<'a>(
    alloc: Global,
    start: usize,
    tokens: &'a [Token],
    depth: u32,
) -> Result<(Stmt, &'a [Token]), Stop>
    requires { depth ≤ most_depth }
    ensures reads { FindsText (text_parsed (transaction depth start) tokens.now) (λ x. found (statement x.0) x.1.now) result }
    ensures within { IfOk result (λ x. length x.1.now < length tokens.now) }
{
    let rest = take(tokens, TokenKind::Punctuator, "{", depth)?;
    let (block, rest) = block(alloc, rest, depth)?;
    Ok((
        made(start, StmtNode::Transaction(block.body, block.end)),
        rest,
    ))
}
