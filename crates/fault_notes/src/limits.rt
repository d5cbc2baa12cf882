//! Definitions that are larger than a limit allows.
use c_tree::{Array, DefKind, Function, Program};
use std::alloc::{AllocError, Global};
use type_notes::Draft;

const MOST_TOKENS: usize = 4096;

const MOST_PARAMETERS: usize = 8;

const MOST_FIELDS: usize = 16;

/// Which limit a definition at a place is over.
pub(crate) fn over_limit(alloc: Global, program: &Program, at: usize) -> Result<Draft, AllocError> {
    for one in program.definitions.as_slice() {
        if one.place == at {
            return of_definition(alloc, &one.kind);
        }
    }
    Draft::of(
        alloc,
        "this is larger than a limit allows: see docs/language.md",
    )
}

fn of_definition(alloc: Global, kind: &DefKind) -> Result<Draft, AllocError> {
    match kind {
        DefKind::Function(function) => of_function(alloc, function),
        DefKind::Struct(name, members) => of_struct(
            alloc,
            name.text.as_str(),
            members.as_slice().len(),
        ),
        DefKind::Array(array) => of_array(alloc, array),
        DefKind::TransformStruct(_) | DefKind::TransformGlobal(_, _) => Draft::of(
            alloc,
            "an expression of this transformer needs more than 64 operands at once",
        ),
        DefKind::Global(_) | DefKind::Mutex(_) | DefKind::Forward(_) | DefKind::Prototype(_) => {
            Draft::of(
                alloc,
                "up to here a text has at most 2048 names and 65536 cells, and an initialiser at most 64 operands at once",
            )
        }
    }
}

fn of_function(alloc: Global, function: &Function) -> Result<Draft, AllocError> {
    let tokens = function.tokens as usize;
    let parameters = function.parameters.as_slice().len();
    let name = function.name.text.as_str();
    if tokens > MOST_TOKENS {
        return has_more(alloc, name, tokens, "token", MOST_TOKENS);
    }
    if parameters > MOST_PARAMETERS {
        return has_more(alloc, name, parameters, "parameter", MOST_PARAMETERS);
    }
    let mut draft = Draft::new(alloc);
    draft.word(name);
    draft.say(
        " has more than 64 variables, or an expression that needs more than 64 operands at once",
    );
    draft.done()
}

fn of_struct(alloc: Global, tag: &str, fields: usize) -> Result<Draft, AllocError> {
    if fields > MOST_FIELDS {
        return has_more(alloc, tag, fields, "field", MOST_FIELDS);
    }
    Draft::of(alloc, "up to here a text has at most 2048 names")
}

fn of_array(alloc: Global, array: &Array) -> Result<Draft, AllocError> {
    let mut draft = Draft::new(alloc);
    draft.word(array.name.text.as_str());
    draft.say(
        " has no elements or more than 65536, or the globals up to here have more than 65536 cells",
    );
    draft.done()
}

/// Says that a definition has more of something than it may have.
fn has_more(
    alloc: Global,
    name: &str,
    number: usize,
    one: &str,
    most: usize,
) -> Result<Draft, AllocError> {
    let mut draft = Draft::new(alloc);
    draft.word(name);
    draft.say(" has ");
    draft.count(number, one);
    draft.say(", and may have ");
    draft.number(most);
    draft.done()
}
