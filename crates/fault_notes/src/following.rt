//! The tokens that could come at a place.
ghost use Rattle.std.specs.Prelude.{◌≡◌, ◌↔◌, ◌∷◌, ◌++◌, [], IfOk, IsTrue};
ghost use Rattle.fault_notes.specs.Expected.{AreTried, BeginsProgram};

use c_expr_parser::SyntaxFault;
use c_lexer::Token;
use c_parser::parse;
use std::alloc::{AllocError, Global};

/// Whether none of some tokens has a fault.
fn begins_program(alloc: Global, tokens: &[Token]) -> Result<bool, AllocError>
    ensures { IfOk result (λ begins. IsTrue begins ↔ BeginsProgram tokens.now) }
{
    match parse(alloc, tokens, 0) {
        Ok(_) => Ok(true),
        Err(SyntaxFault::At(number)) => Ok(number >= tokens.len()),
        Err(SyntaxFault::TooDeep(_)) => Ok(false),
        Err(SyntaxFault::Memory) => Err(AllocError),
    }
}

/// Whether a token could come after some others, which stay as they are.
fn may_follow(alloc: Global, before: &mut Vec<Token>, candidate: Token) -> Result<bool, AllocError>
    ensures fits { IfOk result (λ fits. IsTrue fits ↔ BeginsProgram (before.old.items ++ candidate ∷ [])) }
    ensures same { IfOk result (λ fits. before.new.items ≡ before.old.items) }
{
    before.push(candidate)?;
    let fits = begins_program(alloc, before)?;
    before.pop();
    Ok(fits)
}

/// For each of the candidates in order, whether it could come after the tokens `before`: whether none of them has a fault
/// together.
pub fn expected(
    alloc: Global,
    before: Vec<Token>,
    candidates: Vec<Token>,
) -> Result<Vec<bool>, AllocError>
    ensures { IfOk result (λ fits. AreTried before.items candidates.items fits.items) }
{
    let mut tokens = before;
    let mut fits = Vec::new(alloc);
    for candidate in candidates {
        fits.push(may_follow(alloc, &mut tokens, candidate)?)?;
    }
    Ok(fits)
}
