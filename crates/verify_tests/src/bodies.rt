//! What the verifier says of bodies under the definitions of one text.
use bytecode::{Instr, ValueKind};
use c_definitions::Known;
use c_front::read_text;
use c_ints::Kind;
use c_tree::Program;
use code_kinds::WordKind;
use code_verify::{Body, Source, Verified, VerifyFault, verify};
use resolved_tree::{Trees, Word};
use std::alloc::Global;
use std::test::Fail;

static TEXT: &str =
    "struct node { int value; struct node *next; }; int g; struct node *h; int a[4]; mtx_t m;\n\
    int f(int n, struct node *to) { return n; } int main(void) { return 0; }";

/// The words of the text, in the order in which they are added.
static WORDS: [&str; 8] = ["g", "h", "a", "m", "f", "node", "next", "%d %s"];

pub(crate) const INTEGER_GLOBAL: Word = Word(0);

pub(crate) const HANDLE_GLOBAL: Word = Word(1);

pub(crate) const ARRAY: Word = Word(2);

pub(crate) const MUTEX: Word = Word(3);

pub(crate) const FUNCTION: Word = Word(4);

pub(crate) const STRUCT: Word = Word(5);

pub(crate) const FIELD: Word = Word(6);

pub(crate) const NO_FORMAT: Word = Word(7);

/// A constant `int`.
pub(crate) const ONE: Instr = Instr::Constant(ValueKind::Number(Kind::I32), 1);

/// What the verifier says of the body of a function that gives an integer.
pub(crate) fn verdict(
    alloc: Global,
    parameters: &[WordKind],
    room: u32,
    code: &[Instr],
) -> Result<Result<Verified, VerifyFault>, Fail> {
    let Ok(typed) = read_text(alloc, TEXT.as_bytes()) else {
        return Err(Fail::new("the text has a fault"));
    };
    let said = of_program(alloc, typed.program(), parameters, room, code);
    drop(typed);
    said
}

fn of_program(
    alloc: Global,
    program: &Program,
    parameters: &[WordKind],
    room: u32,
    code: &[Instr],
) -> Result<Result<Verified, VerifyFault>, Fail> {
    let known = Known::of(alloc, program.definitions.as_slice())?;
    let said = of_text(alloc, &known, parameters, room, code);
    drop(known);
    said
}

fn of_text(
    alloc: Global,
    known: &Known,
    parameters: &[WordKind],
    room: u32,
    code: &[Instr],
) -> Result<Result<Verified, VerifyFault>, Fail> {
    let mut trees = Trees::new(alloc);
    for word in WORDS.iter() {
        trees.word(word)?;
    }
    let mut body = Body {
        parameters: Vec::new(alloc),
        result: WordKind::Integer,
        room,
        code: Vec::new(alloc),
    };
    body.parameters.extend_from_slice(parameters)?;
    body.code.extend_from_slice(code)?;
    let source = Source {
        trees: &trees,
        known,
    };
    let said = verify(alloc, &source, body);
    drop(trees);
    Ok(said)
}

/// The place of the first instruction that breaks the body of a function with one integer as its parameter and room for two
/// variables; none where it is well formed.
pub(crate) fn broken_at(alloc: Global, code: &[Instr]) -> Result<Option<usize>, Fail> {
    match verdict(alloc, &[WordKind::Integer], 2, code)? {
        Ok(_) => Ok(None),
        Err(VerifyFault::Bad(place)) => Ok(Some(place)),
        Err(VerifyFault::Memory) => Err(Fail::new("out of memory")),
    }
}
