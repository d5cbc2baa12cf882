ghost use Rattle.std.specs.Prelude.{◌≤◌, ℕ, [], Ok, Err, MatchResult};
ghost use Rattle.c_expr_parser.specs.Reading.{IsUnlessMemory};
ghost use Rattle.c_expr_parser.specs.Readings.{Reads, FaultAt, TooDeepAt};
ghost use Rattle.c_expr_parser.specs.Definitions.{TranslationUnit};
ghost use Rattle.c_parser.specs.Programs.{IsFault, ReadsProgram, ended};
ghost use Rattle.c_parser.specs.TextPlans.{ItemsRead};
ghost use Rattle.c_parser.specs.Parts.{ItemsStop};

use crate::item::item;
use c_expr_parser::SyntaxFault;
use c_expr_parser::parts::Stop;
use c_lexer::Token;
use c_tree::{Def, Program};
use dsu_io::List;
use std::alloc::Global;

/// The program that a text's tokens are, whose tree ends at a place: the text's length.
///
/// Where they are none the answer is a fault, by the number of a token counted from 0: of the faults of syntax and of depth
/// the one with the lesser place. A token at a depth over 64 is a fault of depth, and a text that ends too early has its
/// fault after its last token. The time is linear in the number of tokens. When out of memory, and where a function has 2^32
/// tokens or more, the answer is `Memory`.
pub fn parse(alloc: Global, tokens: &[Token], end: usize) -> Result<Program, SyntaxFault>
    // The answer is true.
    ensures sound { MatchResult result (λ program. ReadsProgram tokens.now end program) (λ fault. IsFault tokens.now fault) }
    // A program is read.
    ensures complete { (program : Program) → Reads TranslationUnit tokens.now program → IsUnlessMemory result (Ok (ended end program)) }
    // Where a token doesn't fit, and none before it is too deep, the answer is that token.
    ensures stuck { (k : ℕ) → FaultAt TranslationUnit tokens.now k → ((j : ℕ) → TooDeepAt TranslationUnit tokens.now j → k ≤ j)
        → IsUnlessMemory result (Err (SyntaxFault.At k)) }
    // Where a token is too deep, the answer is the first that is.
    ensures deep { (k : ℕ) → TooDeepAt TranslationUnit tokens.now k → IsUnlessMemory result (Err (SyntaxFault.TooDeep k)) }
{
    program(alloc, tokens, end)
}

/// The same, with what makes the answer true alone.
fn program(alloc: Global, tokens: &[Token], end: usize) -> Result<Program, SyntaxFault>
    ensures { MatchResult result (λ program. ReadsProgram tokens.now end program) (λ fault. IsFault tokens.now fault) }
{
    let count = tokens.len();
    match items(alloc, tokens) {
        Ok(list) => Ok(Program {
            definitions: List::of(list),
            end,
        }),
        Err(Stop::Stuck(left)) => Err(SyntaxFault::At(count - left)),
        Err(Stop::Deep(left)) => Err(SyntaxFault::TooDeep(count - left)),
        Err(Stop::Memory) => Err(SyntaxFault::Memory),
    }
}

/// The definitions of the items that some tokens are.
fn items(alloc: Global, tokens: &[Token]) -> Result<Vec<Def>, Stop>
    ensures { MatchResult result (λ list. ItemsRead tokens.now list.items []) (λ stop. ItemsStop tokens.now stop) }
{
    let mut list = Vec::new(alloc);
    let mut rest = tokens;
    while !rest.is_empty() {
        let (longer, behind) = item(alloc, list, rest)?;
        list = longer;
        rest = behind;
    }
    Ok(list)
}
