//! The listing of a function of a text. What is owned on the way is owned by a function of its own, which lends it on.
use bytecode::Instr;
use bytecode_gen::{Source, body_code};
use c_definitions::Known;
use c_front::read_text;
use c_ints::Kind;
use c_tree::{Binding, CType, DefKind, Function, Program};
use code_listing::listing;
use expr_gen::{Context, Variable, effect, expression};
use name_resolution::{resolve_body, value_type, word};
use resolved_tree::{NodeId, StatementNode, StatementsNode, Trees, ValueType};
use std::alloc::{AllocError, Global};
use std::test::Fail;

/// The number of the first point of an expression.
const FIRST: u32 = 7;

/// What is after the text of a test.
const MAIN: &str = " int main(void) { return 0; }";

/// Of which part of a function the code is listed.
#[derive(Clone, Copy)]
enum Part {
    Whole,
    /// The expression that is the first statement, where its value stays.
    Value,
    /// The same where its value is dropped.
    Effect,
}

/// Whether the code of the function `f` of a text is listed so, after an empty line.
pub(crate) fn has_code(alloc: Global, text: &str, lines: &str) -> Result<bool, Fail> {
    has_part(alloc, text, Part::Whole, lines)
}

/// The same of the expression that is its first statement, where its value stays.
pub(crate) fn has_value(alloc: Global, text: &str, lines: &str) -> Result<bool, Fail> {
    has_part(alloc, text, Part::Value, lines)
}

/// And where its value is dropped.
pub(crate) fn has_effect(alloc: Global, text: &str, lines: &str) -> Result<bool, Fail> {
    has_part(alloc, text, Part::Effect, lines)
}

fn has_part(alloc: Global, text: &str, part: Part, lines: &str) -> Result<bool, Fail> {
    let code = code_of(alloc, text, part)?;
    Ok(lines.strip_prefix("\n") == Some(code.as_str()))
}

/// The code of a part of `f`, one instruction a line.
fn code_of(alloc: Global, text: &str, part: Part) -> Result<String, Fail> {
    let whole = format!(in alloc; "{text}{MAIN}")?;
    let Ok(typed) = read_text(alloc, whole.as_bytes()) else {
        return Err(Fail::new("the text has a fault"));
    };
    let code = in_program(alloc, typed.program(), part);
    drop(typed);
    code
}

fn in_program(alloc: Global, program: &Program, part: Part) -> Result<String, Fail> {
    let known = Known::of(alloc, program.definitions.as_slice())?;
    let code = in_definitions(alloc, &known, part);
    drop(known);
    code
}

fn in_definitions(alloc: Global, known: &Known, part: Part) -> Result<String, Fail> {
    let Some(f) = known.definition_of("f") else {
        return Err(Fail::new("there is no f"));
    };
    let DefKind::Function(function) = &f.kind else {
        return Err(Fail::new("f is no function"));
    };
    let mut trees = Trees::new(alloc);
    let code = in_function(alloc, known, function, &mut trees, part);
    drop(trees);
    code
}

fn in_function(
    alloc: Global,
    known: &Known,
    function: &Function,
    trees: &mut Trees,
    part: Part,
) -> Result<String, Fail> {
    let body = resolve_body(trees, known, function)?;
    let parameters = parameters_of(alloc, trees, function.parameters.as_slice())?;
    let variables = parameters.as_slice();
    let code = match part {
        Part::Whole => {
            let returned = returned_by(trees, function)?;
            body_code(alloc, &Source { trees, known }, variables, returned, body)?
        }
        Part::Value | Part::Effect => {
            let context = Context {
                trees,
                known,
                variables,
            };
            first_code(alloc, &context, body, part)?
        }
    };
    Ok(listing(alloc, trees, code.as_slice())?)
}

/// The code of the expression that is the first statement of a body.
fn first_code(
    alloc: Global,
    context: &Context,
    body: NodeId,
    part: Part,
) -> Result<Vec<Instr>, Fail> {
    let Some(e) = first_expression(context.trees, body) else {
        return Err(Fail::new("the first statement is no expression"));
    };
    let mut code = Vec::new(alloc);
    match part {
        Part::Effect => effect(context, &mut code, e, FIRST)?,
        Part::Whole | Part::Value => {
            expression(context, &mut code, e, FIRST)?;
        }
    }
    Ok(code)
}

fn first_expression(trees: &Trees, body: NodeId) -> Option<NodeId> {
    let StatementsNode::Then(first, _) = trees.statements(body) else {
        return None;
    };
    match trees.statement(first) {
        StatementNode::Evaluate(e) => Some(e),
        _ => None,
    }
}

/// The parameters of a function, the last one first.
fn parameters_of(
    alloc: Global,
    trees: &mut Trees,
    bindings: &[Binding],
) -> Result<Vec<Variable>, AllocError> {
    let mut parameters = Vec::new(alloc);
    for binding in bindings {
        let declared = value_type(trees, &binding.declared)?;
        let name = word(trees, binding.name.text.as_str())?;
        parameters.push(Variable { declared, name })?;
    }
    parameters.as_mut_slice().reverse();
    Ok(parameters)
}

/// The type of a function's value, `int` where it has none.
fn returned_by(trees: &mut Trees, function: &Function) -> Result<ValueType, AllocError> {
    match &function.result {
        Some(declared) => value_type(trees, declared),
        None => Ok(ValueType::Integer(Kind::I32)),
    }
}
