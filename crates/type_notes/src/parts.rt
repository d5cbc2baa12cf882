//! The parts of an expression with a place.
use crate::found::is_wrong;
use c_definitions::Names;
use c_tree::{Expr, ExprNode as Node};
use dsu_io::Boxed;
use std::alloc::{AllocError, Global};

/// A part, if it begins up to a place.
fn begun(part: &Boxed<Expr>, at: usize) -> Option<&Expr> {
    let expr = part.get();
    if expr.place <= at { Some(expr) } else { None }
}

/// The later of two parts that begins up to a place.
fn later<'a>(a: &'a Boxed<Expr>, b: &'a Boxed<Expr>, at: usize) -> Option<&'a Expr> {
    match begun(b, at) {
        Some(found) => Some(found),
        None => begun(a, at),
    }
}

/// The last of some parts that begins up to a place.
fn last<'a>(parts: &'a [Expr], at: usize) -> Option<&'a Expr> {
    let mut found = None;
    for part in parts {
        if part.place <= at {
            found = Some(part);
        }
    }
    found
}

/// The last part of an expression that begins up to a place: if a part has that place, it is this one.
fn part_at(expr: &Expr, at: usize) -> Option<&Expr> {
    match &expr.node {
        Node::Unary(_, a) | Node::Step(_, a) | Node::Cast(_, a) | Node::Element(_, a) => {
            begun(a, at)
        }
        Node::Arrow(a, _) | Node::Dot(a, _) | Node::Free(a) | Node::Join(a) => begun(a, at),
        Node::Binary(_, a, b) | Node::Update(_, a, b) | Node::Create(a, _, b) => later(a, b, at),
        Node::And(a, b) | Node::Or(a, b) | Node::Assign(a, b) | Node::JoinInto(a, b) => {
            later(a, b, at)
        }
        Node::Choice(a, b, c) => match begun(c, at) {
            Some(found) => Some(found),
            None => later(a, b, at),
        },
        Node::Call(_, list) => last(list.as_slice(), at),
        Node::Print { arguments, .. } => last(arguments.as_slice(), at),
        _ => None,
    }
}

/// An expression, the part of it with a place, the part of that, and so on, at most so many.
fn path_to<'a>(
    alloc: Global,
    whole: &'a Expr,
    at: usize,
    most: usize,
) -> Result<Vec<&'a Expr>, AllocError> {
    let mut path = Vec::new(alloc);
    let mut next = Some(whole);
    for _ in 0..most {
        let Some(expr) = next else {
            return Ok(path);
        };
        path.push(expr)?;
        next = part_at(expr, at);
    }
    Ok(path)
}

/// The smallest expression that has the fault of a whole one at a place; none if the whole has none. `most` is how many
/// expressions a text has at most.
pub(crate) fn smallest_wrong<'a>(
    alloc: Global,
    names: &Names,
    whole: &'a Expr,
    at: usize,
    most: usize,
) -> Result<Option<&'a Expr>, AllocError> {
    let path = path_to(alloc, whole, at, most)?;
    let count = wrong_on(alloc, names, path.as_slice())?;
    match count.checked_sub(1) {
        Some(number) => Ok(path.get(number).copied()),
        None => Ok(None),
    }
}

/// How many expressions of a path have the fault. What has a part with it has it too, so they are the first ones, and halving
/// finds the last of them.
fn wrong_on(alloc: Global, names: &Names, path: &[&Expr]) -> Result<usize, AllocError> {
    let mut low: usize = 0;
    let mut high = path.len();
    for _ in 0..usize::BITS {
        let middle = low.saturating_add(high.saturating_sub(low) / 2);
        if middle >= high || middle >= path.len() {
            return Ok(low);
        }
        if is_wrong(alloc, names, path[middle])? {
            low = middle.saturating_add(1);
        } else {
            high = middle;
        }
    }
    Ok(low)
}
