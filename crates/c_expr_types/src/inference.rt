ghost use Rattle.std.specs.Prelude.{◌≡◌, IfOk, Ok, map};
ghost use Rattle.c_tree.specs.declared.expr.Expr.{Expr as Tree, out-Expr};
ghost use Rattle.c_tree.specs.declared.expr.Expr.TheFolds.{map-Expr};
ghost use Rattle.c_tree.specs.declared.expr.ExprNode.TheVariants.{Call, Choice, Print};
ghost use Rattle.c_expr_types.specs.declared.found.Part.{Part as Seen};
ghost use Rattle.c_expr_types.specs.Expressions.{infer, part};
ghost use Rattle.c_definitions.specs.Views.{names_seen};
ghost use Rattle.c_expr_types.specs.Views.{one_part, two_parts};

use crate::expression::number_type;
use crate::found::{Found, Part};
use crate::infer_node::{call, calloc, character, choice, mutex, print, settled, status, variable};
use crate::shape::{OnePart, TwoParts, with_one_part, with_two_parts};
use c_definitions::Names;
use c_tree::{Expr, ExprNode as Node};
use dsu_io::{Boxed, List, Text};
use std::alloc::{AllocError, Global};

/// Which type an expression has, or its fault.
#[cycle(infer)]
pub fn infer(alloc: Global, names: &Names, expr: &Expr) -> Result<Part, AllocError>
    ensures { IfOk result (λ part. part ≡ infer (names_seen names.now) expr.now) }
{
    Ok(Part {
        place: expr.place,
        found: infer_form(alloc, names, expr)?,
    })
}

/// Which type an expression has, by its form and by what its parts are found to be. No arm has a `?`: that keeps the
/// proof of a `match` with so many arms small.
#[cycle(infer)]
fn infer_form(alloc: Global, names: &Names, expr: &Expr) -> Result<Found, AllocError>
    ensures { let tree = out-Expr expr.now in let names = names_seen names.now in
        IfOk result (λ found. found ≡ (part names tree.place (map-Expr Tree Seen (infer names) tree).node).found) }
{
    let at = expr.place;
    match &expr.node {
        Node::Number(n) => Ok(settled(names, at, None, true, number_type(*n))),
        Node::Character(n) => Ok(character(names, at, *n)),
        Node::Null => Ok(settled(names, at, None, true, Found::Null)),
        Node::Success => Ok(status(names, at)),
        Node::Error => Ok(status(names, at)),
        Node::Variable(name) => variable(names, at, name),
        Node::Unary(op, a) => infer_one(alloc, names, at, OnePart::Unary(*op), a),
        Node::Step(op, a) => infer_one(alloc, names, at, OnePart::Step(*op), a),
        Node::Cast(to, a) => infer_one(alloc, names, at, OnePart::Cast(to), a),
        Node::Binary(op, a, b) => infer_two(alloc, names, at, TwoParts::Binary(*op), a, b),
        Node::And(a, b) => infer_two(alloc, names, at, TwoParts::And, a, b),
        Node::Or(a, b) => infer_two(alloc, names, at, TwoParts::Or, a, b),
        Node::Choice(a, b, c) => infer_choice(alloc, names, at, a, b, c),
        Node::Assign(a, b) => infer_two(alloc, names, at, TwoParts::Assign, a, b),
        Node::Update(op, a, b) => infer_two(alloc, names, at, TwoParts::Update(*op), a, b),
        Node::Call(name, list) => infer_call(alloc, names, at, name, list),
        Node::Element(name, a) => infer_one(alloc, names, at, OnePart::Element(name), a),
        Node::Arrow(a, name) => infer_one(alloc, names, at, OnePart::Arrow(name), a),
        Node::Dot(a, name) => infer_one(alloc, names, at, OnePart::Dot(name), a),
        Node::Print {
            place,
            format,
            arguments,
        } => infer_print(alloc, names, at, *place, format, arguments),
        Node::Calloc(tag) => calloc(names, at, tag),
        Node::Free(a) => infer_one(alloc, names, at, OnePart::Free, a),
        Node::Create(a, name, b) => infer_two(alloc, names, at, TwoParts::Create(name), a, b),
        Node::Join(a) => infer_one(alloc, names, at, OnePart::Join, a),
        Node::JoinInto(a, b) => infer_two(alloc, names, at, TwoParts::JoinInto, a, b),
        Node::InitMutex(name) => Ok(mutex(names, at, name)),
        Node::Lock(name) => Ok(mutex(names, at, name)),
        Node::Unlock(name) => Ok(mutex(names, at, name)),
    }
}

#[cycle(infer)]
fn infer_part(alloc: Global, names: &Names, part: &Boxed<Expr>) -> Result<Part, AllocError>
    ensures { IfOk result (λ found. found ≡ infer (names_seen names.now) part.now) }
{
    infer(alloc, names, part.get())
}

/// An expression with one part.
#[cycle(infer)]
fn infer_one(
    alloc: Global,
    names: &Names,
    at: usize,
    shape: OnePart,
    a: &Boxed<Expr>,
) -> Result<Found, AllocError>
    ensures { let names = names_seen names.now in
        IfOk result (λ found. found ≡ (part names at (one_part shape.entry (infer names a.now))).found) }
{
    let part = infer_part(alloc, names, a)?;
    with_one_part(names, at, shape, &part)
}

/// An expression with two parts.
#[cycle(infer)]
fn infer_two(
    alloc: Global,
    names: &Names,
    at: usize,
    shape: TwoParts,
    a: &Boxed<Expr>,
    b: &Boxed<Expr>,
) -> Result<Found, AllocError>
    ensures { let names = names_seen names.now in
        IfOk result (λ found. found ≡ (part names at (two_parts shape.entry (infer names a.now) (infer names b.now))).found) }
{
    let parts = both(infer_part(alloc, names, a), infer_part(alloc, names, b))?;
    with_two_parts(names, at, shape, &parts.0, &parts.1)
}

/// `a ? b : c`
#[cycle(infer)]
fn infer_choice(
    alloc: Global,
    names: &Names,
    at: usize,
    a: &Boxed<Expr>,
    b: &Boxed<Expr>,
    c: &Boxed<Expr>,
) -> Result<Found, AllocError>
    ensures { let names = names_seen names.now in
        IfOk result (λ found. found ≡ (part names at (Choice (infer names a.now) (infer names b.now) (infer names c.now))).found) }
{
    let results = both(infer_part(alloc, names, b), infer_part(alloc, names, c));
    let parts = both(infer_part(alloc, names, a), results)?;
    choice(names, at, parts)
}

/// A call, by its arguments.
#[cycle(infer)]
fn infer_call(
    alloc: Global,
    names: &Names,
    at: usize,
    name: &Text,
    list: &List<Expr>,
) -> Result<Found, AllocError>
    ensures { let names = names_seen names.now in
        IfOk result (λ found. found ≡ (part names at (Call name.now (map (infer names) list.now))).found) }
{
    let arguments = infer_list(alloc, names, list)?;
    call(names, at, name, &arguments)
}

/// A `printf`, by its arguments.
#[cycle(infer)]
fn infer_print(
    alloc: Global,
    names: &Names,
    at: usize,
    place: usize,
    format: &Text,
    list: &List<Expr>,
) -> Result<Found, AllocError>
    ensures { let names = names_seen names.now in
        IfOk result (λ found. found ≡ (part names at (Print place format.now (map (infer names) list.now))).found) }
{
    let arguments = infer_list(alloc, names, list)?;
    Ok(print(names, at, place, format, &arguments))
}

#[cycle(infer)]
fn infer_list(alloc: Global, names: &Names, list: &List<Expr>) -> Result<Vec<Part>, AllocError>
    ensures { IfOk result (λ parts. parts.items ≡ map (infer (names_seen names.now)) list.now) }
{
    let exprs = list.as_slice();
    let mut parts = Vec::new(alloc);
    for expr in exprs {
        parts.push(infer(alloc, names, expr)?)?;
    }
    Ok(parts)
}

/// Two parts, or the error of the first that failed. One `?` for two parts keeps the proofs of their callers small.
fn both<T: Drop>(
    a: Result<Part, AllocError>,
    b: Result<T, AllocError>,
) -> Result<(Part, T), AllocError>
    ensures { IfOk result (λ parts. (a ≡ Ok parts.0) × (b ≡ Ok parts.1)) }
{
    Ok((a?, b?))
}
