ghost use Rattle.c_lexer.specs.declared.token.Token.{Token};
ghost use Rattle.std.specs.Prelude.{◌≡◌, ◌∷◌, ◌+◌, None, Some, MatchOption, ◌<◌, ◌≤◌, length, IfOk};
ghost use Rattle.c_expr_parser.specs.Readings.{most_depth};
ghost use Rattle.c_expr_parser.specs.Operators.{loosest};
ghost use Rattle.c_expr_parser.specs.Tables.{ahead, binary_operator};
ghost use Rattle.c_expr_parser.specs.Plans.{assignment_sign, assignment, binary, conditional, conditional_rest, chains, Assigned, Chosen, Chain, operand as operand_value, read, parsed, reads, Finds};

use crate::cursor::{shallow, skip, take};
use crate::nodes::{assign, choose, join};
use crate::operand::Operand;
use crate::operators::{Joint, assignment_operator, binary_operator};
use crate::stop::Stop;
use crate::unary::operand;
use c_ints::BinOp;
use c_lexer::{Token, TokenKind};
use std::alloc::Global;

/// How many levels the binary operators have.
pub const LEVELS: u32 = 10;

/// An expression (6.5.16), and the tokens after it.
#[cycle(expression)]
pub fn assignment<'a>(
    alloc: Global,
    tokens: &'a [Token],
    depth: u32,
) -> Result<(Operand, &'a [Token]), Stop>
    requires { depth ≤ most_depth + 1 }
    ensures reads { Finds (parsed (assignment depth) tokens.now) (λ x. read (operand_value x.0) x.1.now) result }
    ensures within { IfOk result (λ x. length x.1.now < length tokens.now) }
{
    let (first, rest) = operand(alloc, tokens, depth, true)?;
    let (left, rest) = assigned(alloc, first, rest, depth)?;
    conditional_rest(alloc, left, rest, depth)
}

/// An operand, or the assignment whose left side it is.
#[cycle(expression)]
fn assigned<'a>(
    alloc: Global,
    left: Operand,
    tokens: &'a [Token],
    depth: u32,
) -> Result<(Operand, &'a [Token]), Stop>
    requires { depth ≤ most_depth + 1 }
    ensures reads { Finds (reads (Assigned depth left) tokens.now) (λ x. read (operand_value x.0) x.1.now) result }
    ensures within { IfOk result (λ x. length x.1.now ≤ length tokens.now) }
{
    match assignment_ahead(&left, tokens) {
        None => Ok((left, tokens)),
        Some((op, behind)) => {
            shallow(tokens, depth)?;
            let (right, rest) = assignment(alloc, behind, depth + 1)?;
            Ok((assign(alloc, op, left, right)?, rest))
        }
    }
}

/// The operator of an assignment whose left side is an operand, and the tokens after it, if it begins the tokens.
fn assignment_ahead<'a>(left: &Operand, tokens: &'a [Token]) -> Option<(Option<BinOp>, &'a [Token])>
    ensures { MatchOption result (ahead (assignment_sign left.now) tokens.now ≡ None)
        (λ x. (t : Token) × (tokens.now ≡ t ∷ x.1.now) × (assignment_sign left.now t ≡ Some x.0)) }
{
    let (sign, rest) = tokens.split_first()?;
    if !left.is_unary {
        return None;
    }
    let op = assignment_operator(sign)?;
    Some((op, rest))
}

/// What joins two operands at a level, and the tokens after it, if it begins the tokens.
fn joint_ahead(tokens: &[Token], level: u32) -> Option<(Joint, &[Token])>
    ensures { MatchOption result (ahead (binary_operator level) tokens.now ≡ None)
        (λ x. (t : Token) × (tokens.now ≡ t ∷ x.1.now) × (binary_operator level t ≡ Some x.0)) }
{
    let (sign, rest) = tokens.split_first()?;
    let joint = binary_operator(sign, level)?;
    Some((joint, rest))
}

/// An expression that is no assignment (6.5.15), and the tokens after it.
#[cycle(expression)]
pub fn conditional<'a>(
    alloc: Global,
    tokens: &'a [Token],
    depth: u32,
) -> Result<(Operand, &'a [Token]), Stop>
    requires { depth ≤ most_depth + 1 }
    ensures reads { Finds (parsed (conditional depth) tokens.now) (λ x. read (operand_value x.0) x.1.now) result }
    ensures within { IfOk result (λ x. length x.1.now < length tokens.now) }
{
    let (first, rest) = operand(alloc, tokens, depth, true)?;
    conditional_rest(alloc, first, rest, depth)
}

/// An operand, or the expression of a level looser than assignment that it begins (6.5.15).
#[cycle(expression)]
pub fn conditional_rest<'a>(
    alloc: Global,
    first: Operand,
    tokens: &'a [Token],
    depth: u32,
) -> Result<(Operand, &'a [Token]), Stop>
    requires { depth ≤ most_depth + 1 }
    ensures reads { Finds (parsed (conditional_rest depth (operand_value first)) tokens.now) (λ x. read (operand_value x.0) x.1.now) result }
    ensures within { IfOk result (λ x. length x.1.now ≤ length tokens.now) }
{
    let (test, rest) = chains(alloc, first, tokens, depth, LEVELS)?;
    chosen(alloc, test, rest, depth)
}

/// An operand, or the choice whose test it is.
#[cycle(expression)]
fn chosen<'a>(
    alloc: Global,
    test: Operand,
    tokens: &'a [Token],
    depth: u32,
) -> Result<(Operand, &'a [Token]), Stop>
    requires { depth ≤ most_depth + 1 }
    ensures reads { Finds (reads (Chosen depth test) tokens.now) (λ x. read (operand_value x.0) x.1.now) result }
    ensures within { IfOk result (λ x. length x.1.now ≤ length tokens.now) }
{
    let Some(behind) = skip(tokens, TokenKind::Punctuator, "?") else {
        return Ok((test, tokens));
    };
    shallow(tokens, depth)?;
    let (first, rest) = assignment(alloc, behind, depth)?;
    let rest = take(rest, TokenKind::Punctuator, ":", depth)?;
    let (second, rest) = conditional(alloc, rest, depth + 1)?;
    Ok((choose(alloc, test, first, second)?, rest))
}

/// An operand with the operators of the tightest levels after it (6.5.5 to 6.5.14).
#[cycle(expression)]
fn chains<'a>(
    alloc: Global,
    first: Operand,
    tokens: &'a [Token],
    depth: u32,
    levels: u32,
) -> Result<(Operand, &'a [Token]), Stop>
    requires shallow { depth ≤ most_depth + 1 }
    requires known { levels ≤ loosest }
    ensures reads { Finds (parsed (chains levels depth (operand_value first)) tokens.now) (λ x. read (operand_value x.0) x.1.now) result }
    ensures within { IfOk result (λ x. length x.1.now ≤ length tokens.now) }
{
    let mut a = first;
    let mut rest = tokens;
    for level in 0..levels {
        let (longer, behind) = chain(alloc, a, rest, depth, level)?;
        a = longer;
        rest = behind;
    }
    Ok((a, rest))
}

/// An expression of the operators of the tightest levels.
#[cycle(expression)]
fn binary<'a>(
    alloc: Global,
    tokens: &'a [Token],
    depth: u32,
    levels: u32,
) -> Result<(Operand, &'a [Token]), Stop>
    requires shallow { depth ≤ most_depth + 1 }
    requires known { levels ≤ loosest }
    ensures reads { Finds (parsed (binary levels depth) tokens.now) (λ x. read (operand_value x.0) x.1.now) result }
    ensures within { IfOk result (λ x. length x.1.now < length tokens.now) }
{
    let (first, rest) = operand(alloc, tokens, depth, true)?;
    chains(alloc, first, rest, depth, levels)
}

/// An operand with the operators of one level after it, which group from the left. The levels are counted from 0 here.
#[cycle(expression)]
fn chain<'a>(
    alloc: Global,
    first: Operand,
    tokens: &'a [Token],
    depth: u32,
    level: u32,
) -> Result<(Operand, &'a [Token]), Stop>
    requires shallow { depth ≤ most_depth + 1 }
    requires known { level < loosest }
    ensures reads { Finds (reads (Chain level depth first) tokens.now) (λ x. read (operand_value x.0) x.1.now) result }
    ensures within { IfOk result (λ x. length x.1.now ≤ length tokens.now) }
{
    let mut a = first;
    let mut rest = tokens;
    while let Some((joint, behind)) = joint_ahead(rest, level + 1) {
        shallow(rest, depth)?;
        let (b, behind) = binary(alloc, behind, depth, level)?;
        a = join(alloc, joint, a, b)?;
        rest = behind;
    }
    Ok((a, rest))
}
