//! Bodies of functions with one parameter, verified under the definitions of a small text.
use bytecode::{Instr, ValueKind};
use c_definitions::Known;
use c_front::read_text;
use c_ints::Kind;
use c_tree::Program;
use code_kinds::WordKind;
use code_verify::{Body, Source};
use local_evaluation::Stop;
use name_sets::NameId;
use resolved_tree::Trees;
use skeletons::CheckInKind;
use std::alloc::Global;
use std::test::Fail;
use verified_code::CodeUnit;

static TEXT: &str = "int main(void) { return 0; }";

/// `int f(int n) { n = number; return n; }`
pub(crate) fn giving(
    alloc: Global,
    function: usize,
    generation: u32,
    number: u64,
) -> Result<CodeUnit, Fail> {
    let Ok(typed) = read_text(alloc, TEXT.as_bytes()) else {
        return Err(Fail::new("the text has a fault"));
    };
    let unit = of_program(alloc, typed.program(), function, generation, number);
    drop(typed);
    unit
}

fn of_program(
    alloc: Global,
    program: &Program,
    function: usize,
    generation: u32,
    number: u64,
) -> Result<CodeUnit, Fail> {
    let known = Known::of(alloc, program.definitions.as_slice())?;
    let unit = of_text(alloc, &known, function, generation, number);
    drop(known);
    unit
}

fn of_text(
    alloc: Global,
    known: &Known,
    function: usize,
    generation: u32,
    number: u64,
) -> Result<CodeUnit, Fail> {
    let Some(function) = NameId::new(function) else {
        return Err(Fail::new("no function has that number"));
    };
    let trees = Trees::new(alloc);
    let source = Source {
        trees: &trees,
        known,
    };
    let body = body(alloc, number)?;
    let unit = CodeUnit::verify(alloc, &source, body, function, generation);
    drop(trees);
    match unit {
        Ok(unit) => Ok(unit),
        Err(_) => Err(Fail::new("the body isn't verified")),
    }
}

fn body(alloc: Global, number: u64) -> Result<Body, Fail> {
    let code = [
        Instr::CheckIn(CheckInKind::Entry, 0),
        Instr::Constant(ValueKind::Number(Kind::I32), number),
        Instr::Store(0),
        Instr::Load(0),
        Instr::Halt(Stop::Return, 1),
    ];
    let mut body = Body {
        parameters: Vec::new(alloc),
        result: WordKind::Integer,
        room: 1,
        code: Vec::new(alloc),
    };
    body.parameters.push(WordKind::Integer)?;
    body.code.extend_from_slice(&code)?;
    Ok(body)
}
