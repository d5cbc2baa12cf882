//! What calls, elements and fields expect.
use crate::draft::Draft;
use crate::found::{say_converted, say_found};
use c_definitions::{Meaning, Names};
use c_tree::{CType, Expr, ExprNode as Node, Function, Name};
use dsu_io::{Boxed, List};

/// Says what is wrong with an expression at a place that is no operator with its operands.
pub(crate) fn say_call(draft: &mut Draft, names: &Names, expr: &Expr, at: usize) {
    let is_own = expr.place == at;
    match &expr.node {
        Node::Call(name, _) | Node::Element(name, _) if is_own => {
            draft.word(name.as_str());
            draft.say(sort_of(expr));
        }
        Node::Call(name, list) => say_argument(draft, names, name.as_str(), list, at),
        Node::Print { arguments, .. } => say_printed(draft, names, arguments, at),
        Node::Element(_, a) => say_taken(draft, names, "an index is an integer", a),
        Node::Arrow(a, _) => say_taken(draft, names, "'->' takes a pointer to a struct", a),
        Node::Dot(_, _) => draft.say(
            "'.' comes only after old in a transformer: a field of what a pointer points to is written with '->'",
        ),
        Node::Free(a) => say_taken(draft, names, "free takes a pointer to a struct", a),
        Node::Join(a) => say_taken(draft, names, "thrd_join takes a thrd_t", a),
        Node::JoinInto(a, b) => say_join(draft, names, a, b, at),
        Node::Create(a, name, b) => {
            if is_own {
                say_thread(draft, name);
            } else {
                say_create(draft, names, a, name, b, at);
            }
        }
        Node::InitMutex(name) | Node::Lock(name) | Node::Unlock(name) => {
            draft.word(name.text.as_str());
            draft.say(" is no mutex");
        }
        _ => draft.say(UNKNOWN),
    }
}

/// What is said where nothing more is known.
pub(crate) const UNKNOWN: &str = "this has a type other than the one expected";

/// What the name before `(` or `[` isn't.
fn sort_of(expr: &Expr) -> &'static str {
    match &expr.node {
        Node::Call(_, _) => " is no function",
        _ => " is no array",
    }
}

/// Says what is taken, and what was found.
fn say_taken(draft: &mut Draft, names: &Names, words: &str, a: &Boxed<Expr>) {
    draft.say(words);
    say_found(draft, names, a.get());
}

/// The number of the argument at a place.
fn number_at(list: &[Expr], at: usize) -> Option<usize> {
    for number in 0..list.len() {
        if list[number].place == at {
            return Some(number);
        }
    }
    None
}

/// The type of a parameter of the function with a name, which takes so many arguments.
fn parameter_type<'a>(
    names: &Names<'a>,
    name: &str,
    count: usize,
    number: usize,
) -> Option<&'a CType> {
    match names.meaning_of(name) {
        Some(Meaning::Function(function)) => type_at(function, count, number),
        _ => None,
    }
}

/// The type of a parameter of a function, if it takes so many arguments.
fn type_at(function: &Function, count: usize, number: usize) -> Option<&CType> {
    let parameters = function.parameters.as_slice();
    if parameters.len() != count {
        return None;
    }
    let parameter = parameters.get(number)?;
    Some(&parameter.declared)
}

/// Says what is wrong with the argument at a place.
fn say_argument(draft: &mut Draft, names: &Names, name: &str, list: &List<Expr>, at: usize) {
    let arguments = list.as_slice();
    match number_at(arguments, at) {
        Some(number) if number < arguments.len() => {
            let declared = parameter_type(names, name, arguments.len(), number);
            say_value(draft, names, declared, &arguments[number]);
        }
        _ => draft.say(UNKNOWN),
    }
}

/// Says which type is expected of a value, where that is known, and what was found.
fn say_value(draft: &mut Draft, names: &Names, declared: Option<&CType>, expr: &Expr) {
    match declared {
        Some(declared) => say_converted(draft, names, declared, expr),
        None => {
            draft.say("expected a value");
            say_found(draft, names, expr);
        }
    }
}

/// Says what is wrong with the argument of a `printf` at a place.
fn say_printed(draft: &mut Draft, names: &Names, arguments: &List<Expr>, at: usize) {
    let list = arguments.as_slice();
    match number_at(list, at) {
        Some(number) if number < list.len() => {
            draft.say("printf takes integers");
            say_found(draft, names, &list[number]);
        }
        _ => draft.say(UNKNOWN),
    }
}

/// Says what is wrong with an operand of `thrd_join` at a place.
fn say_join(draft: &mut Draft, names: &Names, a: &Boxed<Expr>, b: &Boxed<Expr>, at: usize) {
    if a.get().place == at {
        say_taken(draft, names, "thrd_join takes a thrd_t", a);
    } else {
        say_taken(draft, names, "thrd_join stores an int", b);
    }
}

/// Says that a name is no function that a thread can run.
fn say_thread(draft: &mut Draft, name: &Name) {
    draft.word(name.text.as_str());
    draft.say(
        " is no function with one parameter, an integer or a pointer, and the result int: no thread can run it",
    )
}

/// The type of the parameter of the function with a name, if it has one.
fn only_parameter<'a>(names: &Names<'a>, name: &Name) -> Option<&'a CType> {
    parameter_type(names, name.text.as_str(), 1, 0)
}

/// Says what is wrong with an operand of `thrd_create` at a place.
fn say_create(
    draft: &mut Draft,
    names: &Names,
    a: &Boxed<Expr>,
    name: &Name,
    b: &Boxed<Expr>,
    at: usize,
) {
    if a.get().place == at {
        say_taken(draft, names, "thrd_create stores a thrd_t", a);
    } else {
        say_value(draft, names, only_parameter(names, name), b.get());
    }
}
