//! The whole.
use crate::bodies::{Due, Inside, inside_at};
use crate::calls::UNKNOWN;
use crate::draft::Draft;
use crate::found::{say_converted, say_found};
use crate::operands::say_wrong;
use crate::parts::smallest_wrong;
use crate::places::{Spot, spot_at};
use crate::prototypes::say_prototype;
use crate::words::say_type;
use c_definitions::{Known, Names, Position};
use c_scope::Scopes;
use c_tree::{CType, Expr, Function, Name, Program};
use std::alloc::{AllocError, Global};

/// What is wrong in a text whose first fault is a wrong type at a place.
pub fn wrong_type(alloc: Global, program: &Program, at: usize) -> Result<Draft, AllocError> {
    let mut draft = Draft::new(alloc);
    let definitions = program.definitions.as_slice();
    let most = program.end.saturating_add(1);
    match Known::of(alloc, definitions) {
        Ok(known) => say_spot(&mut draft, &known, spot_at(definitions, at), at, most),
        Err(_) => draft.cut(),
    }
    draft.done()
}

/// Says what is wrong where a definition has something at a place. `most` is how many expressions the text has at most.
fn say_spot(draft: &mut Draft, known: &Known, spot: Option<Spot<'_>>, at: usize, most: usize) {
    match spot {
        Some(Spot::Forward(tag)) => say_forward(draft, tag),
        Some(Spot::Prototype(prototype)) => say_prototype(draft, known, prototype),
        Some(Spot::Initialiser(expr, declared)) => {
            say_initialiser(draft, known, expr, declared, at, most);
        }
        Some(Spot::Function(function)) => say_function(draft, known, function, at, most),
        None => draft.say(UNKNOWN),
    }
}

/// Says that a tag has no definition.
fn say_forward(draft: &mut Draft, tag: &Name) {
    draft.say("struct ");
    draft.name(tag.text.as_str());
    draft.say(" is declared here and never defined");
}

/// Says what is wrong in an initialiser of a global.
fn say_initialiser(
    draft: &mut Draft,
    known: &Known,
    expr: &Expr,
    declared: &CType,
    at: usize,
    most: usize,
) {
    let scopes = Scopes::new(draft.alloc());
    let names = Names {
        text: known,
        scopes: &scopes,
        position: Position::InInitialiser,
    };
    say_expression(draft, &names, expr, Due::Converted(declared), at, most);
}

/// Says what is wrong in a function.
fn say_function(draft: &mut Draft, known: &Known, function: &Function, at: usize, most: usize) {
    let mut scopes = Scopes::new(draft.alloc());
    match inside_at(draft.alloc(), &mut scopes, function, at) {
        Ok(inside) => {
            let names = Names {
                text: known,
                scopes: &scopes,
                position: Position::InFunction,
            };
            say_inside(draft, &names, function, inside, at, most);
        }
        Err(_) => draft.cut(),
    }
}

/// The same by what the function has at the place.
fn say_inside(
    draft: &mut Draft,
    names: &Names,
    function: &Function,
    inside: Option<Inside<'_>>,
    at: usize,
    most: usize,
) {
    match inside {
        Some(Inside::Expression(expr, due)) => say_expression(draft, names, expr, due, at, most),
        Some(Inside::Returned(expr)) => {
            let due = due_of(&function.result);
            say_expression(draft, names, expr, due, at, most);
        }
        Some(Inside::Return) => say_return(draft, function),
        None => draft.say(UNKNOWN),
    }
}

/// What is expected of a value that is returned.
fn due_of(result_type: &Option<CType>) -> Due<'_> {
    match result_type {
        Some(declared) => Due::Converted(declared),
        None => Due::Evaluated,
    }
}

/// Says that a `return` has a value exactly if its function has a result.
fn say_return(draft: &mut Draft, function: &Function) {
    draft.word(function.name.text.as_str());
    match &function.result {
        Some(declared) => {
            draft.say(" returns ");
            say_type(draft, declared);
            draft.say(", and this return has no value");
        }
        None => draft.say(" returns nothing, and this return has a value"),
    }
}

/// Says what is wrong in an expression that is no part of another one.
fn say_expression(
    draft: &mut Draft,
    names: &Names,
    expr: &Expr,
    due: Due<'_>,
    at: usize,
    most: usize,
) {
    match smallest_wrong(draft.alloc(), names, expr, at, most) {
        Ok(Some(wrong)) => say_wrong(draft, names, wrong, at),
        Ok(None) => say_due(draft, names, expr, due),
        Err(_) => draft.cut(),
    }
}

/// Says what is expected of an expression, and what was found.
fn say_due(draft: &mut Draft, names: &Names, expr: &Expr, due: Due<'_>) {
    match due {
        Due::Converted(declared) => say_converted(draft, names, declared, expr),
        Due::Tested => say_instead(draft, names, expr, "a condition is an integer or a pointer"),
        Due::Evaluated => say_instead(draft, names, expr, "a name alone is no statement"),
    }
}

/// Says a rule, and what was found.
fn say_instead(draft: &mut Draft, names: &Names, expr: &Expr, rule: &str) {
    draft.say(rule);
    say_found(draft, names, expr);
}
