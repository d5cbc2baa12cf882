//! What the verifier says of the code of a text. What is owned on the way is owned by a function of its own, which lends it on.
use c_definitions::Known;
use c_front::read_text;
use c_tree::{CType, Def, DefKind, Function, Program};
use code_kinds::WordKind;
use code_verify::{Body as Unverified, Source, VerifyFault, verify};
use resolved_tree::Trees;
use std::alloc::Global;
use std::test::Fail;
use text_code::{Body, compile};

/// So many variables at most has a function.
const ROOM: u32 = 64;

/// Compiles a text, and gives how many functions it has, if the verifier passes them all.
pub(crate) fn passed(alloc: Global, text: &str) -> Result<usize, Fail> {
    let Ok(typed) = read_text(alloc, text.as_bytes()) else {
        return Err(Fail::new("the text has a fault"));
    };
    let passed = in_program(alloc, typed.program());
    drop(typed);
    passed
}

fn in_program(alloc: Global, program: &Program) -> Result<usize, Fail> {
    let known = Known::of(alloc, program.definitions.as_slice())?;
    let passed = under_definitions(alloc, program, &known);
    drop(known);
    passed
}

fn under_definitions(alloc: Global, program: &Program, known: &Known) -> Result<usize, Fail> {
    let mut trees = Trees::new(alloc);
    let passed = in_trees(alloc, program, known, &mut trees);
    drop(trees);
    passed
}

fn in_trees(
    alloc: Global,
    program: &Program,
    known: &Known,
    trees: &mut Trees,
) -> Result<usize, Fail> {
    let bodies = compile(alloc, trees, program.definitions.as_slice())?;
    let source = Source {
        trees: &*trees,
        known,
    };
    each_passes(alloc, &source, program.definitions.as_slice(), bodies)
}

fn each_passes(
    alloc: Global,
    source: &Source,
    definitions: &[Def],
    bodies: Vec<Body>,
) -> Result<usize, Fail> {
    let mut left = bodies.into_iter();
    let mut functions = 0usize;
    for definition in definitions {
        if let DefKind::Function(function) = &definition.kind {
            let Some(body) = left.next() else {
                return Err(Fail::new("a function has no code"));
            };
            passes(alloc, source, function, body)?;
            functions = functions.saturating_add(1);
        }
    }
    Ok(functions)
}

/// The verifier passes the code of a function.
fn passes(alloc: Global, source: &Source, function: &Function, body: Body) -> Result<(), Fail> {
    if source.trees.text(body.name) != function.name.text.as_str() {
        return Err(Fail::new("a body has another function's name"));
    }
    let unverified = Unverified {
        parameters: parameters_of(alloc, function)?,
        result: result_of(function),
        room: ROOM,
        code: body.code,
    };
    match verify(alloc, source, unverified) {
        Ok(_) => Ok(()),
        Err(VerifyFault::Bad(_)) => Err(Fail::new("an instruction breaks a body")),
        Err(VerifyFault::Memory) => Err(Fail::new("out of memory")),
    }
}

/// What the words of a function's parameters are, in the order of their numbers: the first one is the last parameter.
fn parameters_of(alloc: Global, function: &Function) -> Result<Vec<WordKind>, Fail> {
    let mut kinds = Vec::new(alloc);
    for parameter in function.parameters.as_slice().iter().rev() {
        kinds.push(kind_of(&parameter.declared))?;
    }
    Ok(kinds)
}

fn result_of(function: &Function) -> WordKind {
    match &function.result {
        Some(declared) => kind_of(declared),
        None => WordKind::Integer,
    }
}

fn kind_of(declared: &CType) -> WordKind {
    match declared {
        CType::Integer(_) => WordKind::Integer,
        CType::Handle(_) => WordKind::Handle,
        CType::Thread => WordKind::Thread,
    }
}
