ghost use Rattle.std.specs.Prelude.{◌≡◌, ◌≤◌, ◌+◌, ℕ, List, Ok, Err, MatchResult, length, take, drop};
ghost use Rattle.c_lexer.specs.declared.token.Token.{Token};
ghost use Rattle.c_tree.specs.declared.expr.Expr.{Expr};
ghost use Rattle.c_expr_parser.specs.Expressions.{Assignment};
ghost use Rattle.c_expr_parser.specs.Laws.{OneExpression, ExpressionDepth};
ghost use Rattle.c_expr_parser.specs.Reading.{IsRead, IsFault, IsUnlessMemory};
ghost use Rattle.c_expr_parser.specs.Readings.{Reads, ReadsTo, FaultBefore, TooDeepAt, most_depth};
ghost use Rattle.c_expr_parser.specs.Plans.{Value, as_expr, assignment as assignment_plan, parsed, read, Told};

use crate::climb::assignment;
use crate::stop::Stop;
use c_lexer::Token;
use c_tree::Expr;
use std::alloc::{AllocError, Global};

/// Why tokens can't be read. A place is a token's number, counted from 0.
#[derive(Clone, Copy, Debug, PartialEq, Eq)]
pub enum SyntaxFault {
    /// The tokens before this one can go on to what is read, and with it they can't; or the tokens end here too early.
    At(usize),
    /// The tokens up to this one can go on to what is read, and it's the first that is too deep.
    TooDeep(usize),
    /// Lack of memory.
    Memory,
}

impl From<AllocError> for SyntaxFault {
    ghost use Rattle.c_expr_parser.specs.declared.parser.SyntaxFault.TheVariants.{Memory};

    ghost from_gives = { λ _ fault. fault ≡ Memory };

    fn from(_: AllocError) -> SyntaxFault {
        SyntaxFault::Memory
    }
}

/// The expression that begins with the token of a number, and the number of the token after it.
///
/// The token at `at` is at the given depth, and a token at a depth over 64 is a fault. As many tokens are read as
/// begin an expression: where these are none, or where memory wants, the answer is a fault. Of two faults it is the one
/// with the lesser place. The time is linear in the number of tokens read.
pub fn expression(
    alloc: Global,
    tokens: &[Token],
    at: usize,
    depth: u32,
) -> Result<(Expr, usize), SyntaxFault>
    requires within { at ≤ length tokens.now }
    requires shallow { depth ≤ most_depth }
    // The answer is true.
    ensures sound { MatchResult result
        (λ x. IsRead (Assignment depth) (drop at tokens.now) at x.0 x.1)
        (λ fault. IsFault (Assignment depth) (drop at tokens.now) at fault) }
    // What can be read is read.
    ensures complete { (n : ℕ) → (e : Expr) → ReadsTo (Assignment depth) (drop at tokens.now) n
        → Reads (Assignment depth) (take n (drop at tokens.now)) e
        → IsUnlessMemory result (Ok (e, at + n)) }
    // Where a token doesn't fit, and none before it is too deep, the answer is that token.
    ensures stuck { (k : ℕ) → FaultBefore (Assignment depth) (drop at tokens.now) k
        → ((j : ℕ) → TooDeepAt (Assignment depth) (drop at tokens.now) j → k ≤ j)
        → IsUnlessMemory result (Err (SyntaxFault.At (at + k))) }
    // Where a token is too deep, the answer is the first that is.
    ensures deep { (k : ℕ) → TooDeepAt (Assignment depth) (drop at tokens.now) k
        → IsUnlessMemory result (Err (SyntaxFault.TooDeep (at + k))) }
{
    expression_at(alloc, tokens, at, depth)
}

/// The same, by what the plan for an expression gives on the tokens.
fn expression_at(
    alloc: Global,
    tokens: &[Token],
    at: usize,
    depth: u32,
) -> Result<(Expr, usize), SyntaxFault>
    requires within { at ≤ length tokens.now }
    requires shallow { depth ≤ most_depth }
    ensures { let m = parsed (assignment_plan depth) (drop at tokens.now) in
        MatchResult result
        (λ x. (v : Value) × (rest : List Token) × (m ≡ read v rest) × (as_expr v ≡ x.0) × (x.1 + length rest ≡ length tokens.now))
        (λ fault. Told fault m (length tokens.now)) }
{
    let count = tokens.len();
    let (_, rest) = tokens.split_at(at);
    match assignment(alloc, rest, depth) {
        Ok((operand, rest)) => Ok((operand.expr.into_inner(), count - rest.len())),
        Err(Stop::Stuck(left)) => Err(SyntaxFault::At(count - left)),
        Err(Stop::Deep(left)) => Err(SyntaxFault::TooDeep(count - left)),
        Err(Stop::Memory) => Err(SyntaxFault::Memory),
    }
}

/// At most one expression is read from a list of tokens, with one way to place them.
pub fn one_expression()
    ensures { OneExpression }
{}

/// The depth of a token in an expression depends on the tokens up to it alone.
pub fn expression_depth()
    ensures { ExpressionDepth }
{}
