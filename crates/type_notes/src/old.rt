//! `old` in transformers.
use crate::bodies::declare_bindings;
use c_ints::{BinOp, UnOp};
use c_scope::Scopes;
use c_tree::{Binding, CType, Expr, ExprNode as Node};
use dsu_io::{Boxed, Text};
use std::alloc::{AllocError, Global};

/// What `old` is in a transformer.
#[derive(Clone, Copy)]
pub(crate) enum Old<'a> {
    /// An object of a struct with these fields.
    Object(&'a [Binding]),
    /// A value of a type.
    Value(&'a CType),
}

/// The variable for `old` where it is a value.
const VALUE: &str = "old";

/// A name that no variable has.
const NONE: &str = "";

/// Declares the variables for what `old` has: its fields by their names, or its value.
pub(crate) fn declare_old(scopes: &mut Scopes<CType>, old: Old<'_>) -> Result<(), AllocError> {
    match old {
        Old::Object(fields) => declare_bindings(scopes, fields),
        Old::Value(declared) => {
            let declared = declared.copy()?;
            scopes.declare(VALUE, declared)?;
            Ok(())
        }
    }
}

/// Whether one of some fields has a name.
fn has_field(fields: &[Binding], name: &str) -> bool {
    for field in fields {
        if field.name.text.as_str() == name {
            return true;
        }
    }
    false
}

/// The variable for `old.f` or for `old` by itself; where `old` is no such thing, a name that none has.
fn variable_for<'a>(old: Old<'_>, expr: &'a Expr) -> &'a str {
    match (&expr.node, old) {
        (Node::Variable(_), Old::Value(_)) => VALUE,
        (Node::Dot(_, field), Old::Object(fields)) => {
            let name = field.text.as_str();
            if has_field(fields, name) { name } else { NONE }
        }
        _ => NONE,
    }
}

/// An expression of a transformer with variables for `old` and its fields. It has the types of the transformer's expression, and
/// the wrong ones at the same places.
#[cycle(with_variables)]
pub(crate) fn with_variables(alloc: Global, old: Old<'_>, expr: &Expr) -> Result<Expr, AllocError> {
    Ok(Expr {
        place: expr.place,
        node: node_with_variables(alloc, old, expr)?,
    })
}

#[cycle(with_variables)]
fn node_with_variables(alloc: Global, old: Old<'_>, expr: &Expr) -> Result<Node<Expr>, AllocError> {
    match &expr.node {
        Node::Number(n) => Ok(Node::Number(*n)),
        Node::Character(n) => Ok(Node::Character(*n)),
        Node::Null => Ok(Node::Null),
        Node::Unary(op, a) => unary(*op, part(alloc, old, a)),
        Node::Cast(to, a) => cast(to, part(alloc, old, a)),
        Node::Binary(op, a, b) => { binary(*op, both(part(alloc, old, a), part(alloc, old, b))) }
        Node::Choice(a, b, c) => {
            let results = both(part(alloc, old, b), part(alloc, old, c));
            choice(part(alloc, old, a), results)
        }
        _ => variable(alloc, variable_for(old, expr)),
    }
}

#[cycle(with_variables)]
fn part(alloc: Global, old: Old<'_>, part: &Boxed<Expr>) -> Result<Boxed<Expr>, AllocError> {
    Boxed::of(alloc, with_variables(alloc, old, part.get())?)
}

/// Two parts, or the error of the first that failed.
fn both(
    a: Result<Boxed<Expr>, AllocError>,
    b: Result<Boxed<Expr>, AllocError>,
) -> Result<(Boxed<Expr>, Boxed<Expr>), AllocError> {
    Ok((a?, b?))
}

fn variable(alloc: Global, name: &str) -> Result<Node<Expr>, AllocError> {
    Ok(Node::Variable(Text::of(alloc, name)?))
}

fn unary(op: UnOp, a: Result<Boxed<Expr>, AllocError>) -> Result<Node<Expr>, AllocError> {
    Ok(Node::Unary(op, a?))
}

fn cast(to: &CType, a: Result<Boxed<Expr>, AllocError>) -> Result<Node<Expr>, AllocError> {
    let a = a?;
    Ok(Node::Cast(to.copy()?, a))
}

fn binary(
    op: BinOp,
    parts: Result<(Boxed<Expr>, Boxed<Expr>), AllocError>,
) -> Result<Node<Expr>, AllocError> {
    let (a, b) = parts?;
    Ok(Node::Binary(op, a, b))
}

/// `a ? b : c`, by a and (b, c)
fn choice(
    a: Result<Boxed<Expr>, AllocError>,
    results: Result<(Boxed<Expr>, Boxed<Expr>), AllocError>,
) -> Result<Node<Expr>, AllocError> {
    let (b, c) = results?;
    Ok(Node::Choice(a?, b, c))
}
