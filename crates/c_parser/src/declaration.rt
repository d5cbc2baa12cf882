ghost use Rattle.std.specs.Prelude.{◌≡◌, ◌<◌, ◌≤◌, ◌+◌, ◌++◌, length, IfOk, List};
ghost use Rattle.c_tree.specs.declared.stmt.Declaration.{Declaration};
ghost use Rattle.c_tree.specs.declared.stmt.Stmt.{Stmt};
ghost use Rattle.c_expr_parser.specs.Readings.{most_depth};
ghost use Rattle.c_tree.specs.declared.stmt.StmtNode.TheVariants.{Declare};
ghost use Rattle.c_expr_parser.specs.Statements.{stmt, declares};
ghost use Rattle.c_parser.specs.TextPlans.{Found, TextPlan, Want, Initial, optional, star_then, declaration_behind, text_parsed, FindsText};
ghost use Rattle.c_parser.specs.Parts.{variable_then};

use crate::push::push;
use c_expr_parser::parts::{Stop, assignment, name, shallow, skip, take};
use c_lexer::{Token, TokenKind};
use c_tree::{CType, Declaration, Expr, Stmt, StmtNode};
use std::alloc::Global;

/// The star of a handle's type before a further name (6.7.6), or nothing.
pub fn star<'a>(declared: &CType, tokens: &'a [Token], depth: u32) -> Result<&'a [Token], Stop>
    ensures reads { (k : TextPlan) → FindsText (text_parsed (star_then depth declared.now k) tokens.now) (λ rest. text_parsed k rest.now) result }
    ensures within { IfOk result (λ rest. length rest.now ≤ length tokens.now) }
{
    match declared {
        CType::Handle(_) => take(tokens, TokenKind::Punctuator, "*", depth),
        CType::Integer(_) | CType::Thread => Ok(tokens),
    }
}

/// An initialiser after its sign (6.7.9), or nothing.
fn initial<'a>(
    alloc: Global,
    tokens: &'a [Token],
    depth: u32,
) -> Result<(Option<Expr>, &'a [Token]), Stop>
    requires { depth ≤ most_depth + 1 }
    ensures reads { (k : Found → TextPlan) → FindsText (text_parsed (Want (Initial depth) k) tokens.now) (λ x. text_parsed (k (optional x.0)) x.1.now) result }
    ensures within { IfOk result (λ x. length x.1.now ≤ length tokens.now) }
{
    let Some(behind) = skip(tokens, TokenKind::Punctuator, "=") else {
        return Ok((None, tokens));
    };
    shallow(tokens, depth)?;
    let (value, rest) = assignment(alloc, behind, depth)?;
    Ok((Some(value.expr.into_inner()), rest))
}

/// A variable of a type, alone or with an initialiser.
fn variable<'a>(
    alloc: Global,
    declared: &CType,
    tokens: &'a [Token],
    depth: u32,
) -> Result<(Declaration, &'a [Token]), Stop>
    requires { depth ≤ most_depth + 1 }
    ensures reads { (k : Declaration → TextPlan) → FindsText (text_parsed (variable_then depth declared.now k) tokens.now) (λ x. text_parsed (k x.0) x.1.now) result }
    ensures within { IfOk result (λ x. length x.1.now < length tokens.now) }
{
    let (variable, rest) = name(tokens, depth)?;
    // Copied before the initialiser is read, so that no fault drops an expression here.
    let declared = declared.copy()?;
    let (initial, rest) = initial(alloc, rest, depth)?;
    let declaration = Declaration {
        declared,
        name: variable,
        initial,
    };
    Ok((declaration, rest))
}

/// The variables that a type declares, up to the semicolon (6.7), added to the statements before as of one place.
pub fn declaration<'a>(
    alloc: Global,
    before: Vec<Stmt>,
    start: usize,
    declared: &CType,
    tokens: &'a [Token],
    depth: u32,
) -> Result<(Vec<Stmt>, &'a [Token]), Stop>
    requires { depth ≤ most_depth + 1 }
    ensures reads { (k : List Stmt → TextPlan) → FindsText (text_parsed (declaration_behind depth declared.now (λ ds. k (before.items ++ declares start ds))) tokens.now) (λ x. text_parsed (k x.0.items) x.1.now) result }
    ensures within { IfOk result (λ x. length x.1.now < length tokens.now) }
{
    let (first, behind) = variable(alloc, declared, tokens, depth)?;
    let mut list = before;
    push(&mut list, declared_at(start, first))?;
    let mut rest = behind;
    while let Some(behind) = skip(rest, TokenKind::Punctuator, ",") {
        shallow(rest, depth)?;
        let behind = star(declared, behind, depth)?;
        let (next, behind) = variable(alloc, declared, behind, depth)?;
        push(&mut list, declared_at(start, next))?;
        rest = behind;
    }
    let rest = take(rest, TokenKind::Punctuator, ";", depth)?;
    Ok((list, rest))
}

/// The statement that declares a variable.
fn declared_at(place: usize, declaration: Declaration) -> Stmt
    ensures { result ≡ stmt place (Declare declaration) }
{
    Stmt {
        place,
        node: StmtNode::Declare(declaration),
    }
}
