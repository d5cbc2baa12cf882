//! What an expression is found to be.
use crate::draft::Draft;
use crate::words::{integer_words, say_type};
use c_definitions::{Meaning, Names};
use c_expr_types::{Found, Part, infer};
use c_tree::{CType, Expr, ExprNode as Node};
use dsu_io::Boxed;
use std::alloc::{AllocError, Global};

/// Whether an expression has a fault.
pub(crate) fn is_wrong(alloc: Global, names: &Names, expr: &Expr) -> Result<bool, AllocError> {
    let part = infer(alloc, names, expr)?;
    Ok(matches!(part.found, Found::Wrong(_)))
}

/// Whether the value of an expression can be tested for zero.
pub(crate) fn is_tested(alloc: Global, names: &Names, expr: &Expr) -> Result<bool, AllocError> {
    let part = infer(alloc, names, expr)?;
    Ok(part.found.has_scalar())
}

/// Says what a name by itself is.
fn say_name(draft: &mut Draft, names: &Names, name: &str) {
    draft.say(match names.meaning_of(name) {
        Some(Meaning::Function(_)) => "the function ",
        Some(Meaning::Array(_)) => "the array ",
        Some(Meaning::Mutex) => "the mutex ",
        _ => "the name ",
    });
    draft.word(name);
}

/// Says what an expression is that has no type.
fn say_untyped(draft: &mut Draft, names: &Names, expr: &Expr) {
    match &expr.node {
        Node::Variable(name) => say_name(draft, names, name.as_str()),
        _ => draft.say("no value"),
    }
}

/// Says what an expression was found to be: its type, or what it is instead of a value.
fn say_part(draft: &mut Draft, names: &Names, expr: &Expr, part: &Part) {
    match &part.found {
        Found::Place(declared) | Found::Value(declared) => say_type(draft, declared),
        Found::Zero(kind) => draft.say(integer_words(*kind)),
        Found::Null => draft.say("NULL"),
        Found::Designator => say_untyped(draft, names, expr),
        Found::Nothing => draft.say("no value"),
        Found::Wrong(_) => draft.say("another fault"),
    }
}

/// Says what an expression is found to be.
fn say_expr(draft: &mut Draft, names: &Names, expr: &Expr) {
    match infer(draft.alloc(), names, expr) {
        Ok(part) => say_part(draft, names, expr, &part),
        Err(_) => draft.cut(),
    }
}

/// Says what was found in place of what was expected.
pub(crate) fn say_found(draft: &mut Draft, names: &Names, expr: &Expr) {
    draft.say(", found ");
    say_expr(draft, names, expr);
}

/// Says which two were found; only the first where the second has a fault of its own.
pub(crate) fn say_both(draft: &mut Draft, names: &Names, a: &Boxed<Expr>, b: &Boxed<Expr>) {
    say_found(draft, names, a.get());
    match is_wrong(draft.alloc(), names, b.get()) {
        Ok(false) => say_second(draft, names, b.get()),
        Ok(true) => {}
        Err(_) => draft.cut(),
    }
}

/// Says what the second of two was found to be.
fn say_second(draft: &mut Draft, names: &Names, expr: &Expr) {
    draft.say(" and ");
    say_expr(draft, names, expr);
}

/// Says which type is expected and what was found.
pub(crate) fn say_converted(draft: &mut Draft, names: &Names, expected: &CType, expr: &Expr) {
    draft.say("expected ");
    say_type(draft, expected);
    say_found(draft, names, expr);
}
