ghost use Rattle.std.specs.Prelude.{◌≡◌, ◌≢◌, ◌⊎◌, ℕ, Ok, Err, IfOk, IsErrOf, IfErr, MatchResult};
ghost use Rattle.c_lexer.specs.Cut.{Lexes};
ghost use Rattle.c_lexer.specs.declared.token.LexFault.{LexFault};
ghost use Rattle.c_tree.specs.declared.def.Program.{Program};
ghost use Rattle.c_front.specs.declared.fault.FaultKind.{FaultKind};
ghost use Rattle.c_front.specs.Accepted.{Accepted, FirstFault, byte_of};
ghost use Rattle.c_front.specs.Told.{lexical, syntactic, typed_fault};

use crate::fault::{FaultKind, TextFault};
use c_expr_parser::SyntaxFault;
use c_lexer::{LexFault, Token, lex};
use c_parser::parse;
use c_types::{TypeFault, Typed, check};
use std::alloc::Global;

/// The tree of a text, whose types are right, or the first fault of the text.
///
/// The tree's end is the length of the text.
pub fn read_text(alloc: Global, text: &[u8]) -> Result<Typed, TextFault>
    // The answer is true.
    ensures accepted { IfOk result (λ typed. Accepted text.now typed) }
    ensures refused { (wrong : FaultKind) (at : ℕ) → IsErrOf result (TextFault.Refused wrong at) → FirstFault text.now wrong at }
    // A text that is accepted is read, if memory doesn't want.
    ensures complete { (program : Program) → Accepted text.now program
        → (result ≡ Ok program) ⊎ (result ≡ Err TextFault.Memory) }
    // The first fault of a text is answered, if memory doesn't want.
    ensures first { (wrong : FaultKind) (at : ℕ) → FirstFault text.now wrong at
        → (result ≡ Err (TextFault.Refused wrong at)) ⊎ (result ≡ Err TextFault.Memory) }
{
    let tokens = match lex(alloc, text) {
        Ok(tokens) => tokens,
        Err(fault) => return Err(of_tokens(fault)),
    };
    let program = match parse(alloc, &tokens, text.len()) {
        Ok(program) => program,
        Err(fault) => return Err(of_syntax(fault, text, &tokens)),
    };
    match check(alloc, program) {
        Ok(typed) => Ok(typed),
        Err(fault) => Err(of_types(fault)),
    }
}

/// What a fault of the tokens is reported as.
fn of_tokens(fault: LexFault) -> TextFault
    ensures { result ≡ lexical fault }
{
    match fault {
        LexFault::BadByte(at) => TextFault::Refused(FaultKind::BadByte, at),
        LexFault::BadLiteral(at) => TextFault::Refused(FaultKind::BadLiteral, at),
        LexFault::Directive(at) => TextFault::Refused(FaultKind::Directive, at),
        LexFault::TooMany(at) => TextFault::Refused(FaultKind::TooMany, at),
        LexFault::Memory => TextFault::Memory,
    }
}

/// What a fault of syntax is reported as.
fn of_syntax(fault: SyntaxFault, text: &[u8], tokens: &[Token]) -> TextFault
    ensures { result ≡ syntactic text.now tokens.now fault }
{
    match fault {
        SyntaxFault::At(number) => TextFault::Refused(
            FaultKind::Syntax,
            byte_of(text, tokens, number),
        ),
        SyntaxFault::TooDeep(number) => {
            TextFault::Refused(FaultKind::TooDeep, byte_of(text, tokens, number))
        }
        SyntaxFault::Memory => TextFault::Memory,
    }
}

/// The byte at which the token of a number begins; the end of the text, where there is none.
fn byte_of(text: &[u8], tokens: &[Token], number: usize) -> usize
    ensures { result ≡ byte_of text.now tokens.now number }
{
    match tokens.get(number) {
        Some(token) => token.at,
        None => text.len(),
    }
}

/// What a fault of types is reported as.
fn of_types(fault: TypeFault) -> TextFault
    ensures { result ≡ typed_fault fault }
{
    match fault {
        TypeFault::Refused(kind, at) => TextFault::Refused(FaultKind::Kind(kind), at),
        TypeFault::Memory => TextFault::Memory,
    }
}
