//! What is wrong in a transformer.
use crate::calls::UNKNOWN;
use crate::draft::Draft;
use crate::found::say_converted;
use crate::old::{Old, declare_old, with_variables};
use crate::operands::say_wrong;
use crate::parts::smallest_wrong;
use crate::words::say_type;
use c_definitions::{Known, Meaning, Names, Position, defined};
use c_scope::Scopes;
use c_tree::{
    CType, Def, DefKind, Expr, ExprNode as Node, FieldValue, Name, Program, StructTransform,
};
use std::alloc::{AllocError, Global};

/// A value that a transformer gives.
#[derive(Clone, Copy)]
struct Given<'a> {
    old: Old<'a>,
    /// The type to which it is converted.
    to: &'a CType,
    value: &'a Expr,
}

/// What is wrong in the transformers of a text that follows an older one, where their first fault is a wrong type at a place.
pub fn wrong_transformer(
    alloc: Global,
    old: &Program,
    new: &Program,
    at: usize,
) -> Result<Draft, AllocError> {
    let mut draft = Draft::new(alloc);
    match Known::of(alloc, old.definitions.as_slice()) {
        Ok(known) => say_after(&mut draft, &known, new, at),
        Err(_) => draft.cut(),
    }
    draft.done()
}

/// Says what is wrong there after the definitions of the older text.
fn say_after(draft: &mut Draft, old: &Known<'_>, new: &Program, at: usize) {
    let definitions = new.definitions.as_slice();
    let most = new.end.saturating_add(1);
    match Known::of(draft.alloc(), definitions) {
        Ok(known) => say_at(
            draft,
            &known,
            given_at(old, &known, definitions, at),
            at,
            most,
        ),
        Err(_) => draft.cut(),
    }
}

/// Says what is wrong with a value, if it is known. `most` is how many expressions the text has at most.
fn say_at(draft: &mut Draft, text: &Known<'_>, given: Option<Given<'_>>, at: usize, most: usize) {
    match given {
        Some(given) => say_given(draft, text, given, at, most),
        None => draft.say(UNKNOWN),
    }
}

/// The value with a place that one of some definitions gives: the last one that begins up to it.
fn given_at<'a>(
    old: &'a Known<'a>,
    new: &'a Known<'a>,
    definitions: &'a [Def],
    at: usize,
) -> Option<Given<'a>> {
    let mut found = None;
    for one in definitions {
        if one.place <= at {
            found = given_in(old, new, one, at);
        }
    }
    found
}

/// The same of a definition.
fn given_in<'a>(
    old: &'a Known<'a>,
    new: &'a Known<'a>,
    one: &'a Def,
    at: usize,
) -> Option<Given<'a>> {
    match &one.kind {
        DefKind::TransformStruct(transform) => field_given(old, new, transform, at),
        DefKind::TransformGlobal(name, value) => Some(Given {
            old: Old::Value(variable_in(old, name)?),
            to: variable_in(new, name)?,
            value,
        }),
        _ => None,
    }
}

/// The same of a struct's transformer.
fn field_given<'a>(
    old: &'a Known<'a>,
    new: &'a Known<'a>,
    transform: &'a StructTransform,
    at: usize,
) -> Option<Given<'a>> {
    let tag = transform.name.text.as_str();
    let fields = old.members_of(tag)?;
    let given = last_begun(transform.values.as_slice(), at)?;
    Some(Given {
        old: Old::Object(fields.as_slice()),
        to: new.member(tag, given.field.text.as_str())?,
        value: &given.value,
    })
}

/// The last of some values that begins up to a place.
fn last_begun(values: &[FieldValue], at: usize) -> Option<&FieldValue> {
    let mut found = None;
    for one in values {
        if one.value.place <= at {
            found = Some(one);
        }
    }
    found
}

/// The type of a global variable.
fn variable_in<'a>(known: &'a Known<'a>, name: &Name) -> Option<&'a CType> {
    match defined(known, name.text.as_str()) {
        Some(Meaning::Variable(declared)) => Some(declared),
        _ => None,
    }
}

/// Says what is wrong with a value.
fn say_given(draft: &mut Draft, text: &Known<'_>, given: Given<'_>, at: usize, most: usize) {
    let mut scopes = Scopes::new(draft.alloc());
    match declare_old(&mut scopes, given.old) {
        Ok(()) => {
            let names = Names {
                text,
                scopes: &scopes,
                position: Position::InFunction,
            };
            say_in(draft, &names, given, at, most);
        }
        Err(_) => draft.cut(),
    }
}

/// The same, where `old` is declared.
fn say_in(draft: &mut Draft, names: &Names<'_>, given: Given<'_>, at: usize, most: usize) {
    match with_variables(draft.alloc(), given.old, given.value) {
        Ok(value) => say_value(draft, names, given, &value, at, most),
        Err(_) => draft.cut(),
    }
}

/// The same of the value with variables for `old`.
fn say_value(
    draft: &mut Draft,
    names: &Names<'_>,
    given: Given<'_>,
    value: &Expr,
    at: usize,
    most: usize,
) {
    match smallest_wrong(draft.alloc(), names, value, at, most) {
        Ok(Some(wrong)) => say_smallest(draft, names, given.old, wrong, at),
        Ok(None) => say_converted(draft, names, given.to, value),
        Err(_) => draft.cut(),
    }
}

/// Says what is wrong with the smallest expression that has the fault.
fn say_smallest(draft: &mut Draft, names: &Names<'_>, old: Old<'_>, wrong: &Expr, at: usize) {
    match &wrong.node {
        Node::Variable(_) => say_old(draft, old),
        _ => say_wrong(draft, names, wrong, at),
    }
}

/// Says what `old` is, where it is used as something else.
fn say_old(draft: &mut Draft, old: Old<'_>) {
    match old {
        Old::Object(_) => draft.say("old is an object here, and no value: use one of its fields"),
        Old::Value(declared) => {
            draft.say("old is of type ");
            say_type(draft, declared);
            draft.say(" here, and has no fields");
        }
    }
}
