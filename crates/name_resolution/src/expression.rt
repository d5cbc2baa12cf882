//! Expressions, by the trees of a text.
ghost use Rattle.std.specs.Prelude.{◌≡◌, map, IfOk};
ghost use Rattle.c_tree.specs.Bare.{bare_expr};
ghost use Rattle.c_semantics.specs.Resolution.{resolved, tree_of};
ghost use Rattle.c_semantics.specs.Resolution.{resolved_all};
ghost use Rattle.c_tree.specs.Bare.{bare_arguments};
ghost use Rattle.name_resolution.specs.Forms.{of_one, of_two, of_many};
ghost use Rattle.resolved_tree.specs.Nodes.{Table, expression_at};
ghost use Rattle.name_resolution.specs.Found.{Grows, IsIn, found, in_found, each_node};
ghost use Rattle.name_resolution.specs.Known.{known_of, locals_of};
ghost use Rattle.resolved_tree.specs.Trees.{table};

use crate::form::{Many, One, Two, made_of_many, made_of_one, made_of_two};
use crate::found::{Found, tree};
use crate::known::Local;
use crate::names::variable;
use crate::operator::{calloc, choice, constant, init_mutex, lock, unlock};
use c_definitions::Known;
use c_ints::Int;
use c_tree::{Expr, ExprNode};
use dsu_io::{Boxed, List};
use resolved_tree::{NodeId, Trees};
use std::alloc::AllocError;

/// An expression, its names resolved.
#[cycle(resolve)]
pub(crate) fn resolve(
    trees: &mut Trees,
    known: &Known,
    locals: &[Local],
    expr: &Expr,
) -> Result<Found, AllocError>
    ensures found { IfOk result (λ r. (u : Table) → Grows (table trees.new) u
        → found u r ≡ resolved (known_of known.now) (locals_of locals.now) (bare_expr expr.now)) }
    ensures within { IfOk result (λ r. IsIn (table trees.new) (in_found r)) }
    ensures grows { Grows (table trees.old) (table trees.new) }
{
    match &expr.node {
        ExprNode::Number(n) => constant(trees, *n),
        ExprNode::Character(n) => constant(trees, *n),
        ExprNode::Null => constant(trees, Int::I32(0)),
        ExprNode::Success => constant(trees, Int::I32(0)),
        ExprNode::Error => constant(trees, Int::I32(1)),
        ExprNode::Variable(name) => variable(trees, known, locals, name.as_str()),
        ExprNode::Unary(op, a) => one(trees, known, locals, a, One::Unary(*op)),
        ExprNode::Step(op, a) => one(trees, known, locals, a, One::Step(*op)),
        ExprNode::Cast(to, a) => one(trees, known, locals, a, One::Cast(to)),
        ExprNode::Binary(op, a, b) => {
            let x = part(trees, known, locals, a)?;
            with(trees, known, locals, x, b, Two::Binary(*op))
        }
        ExprNode::And(a, b) => {
            let x = part(trees, known, locals, a)?;
            with(trees, known, locals, x, b, Two::And)
        }
        ExprNode::Or(a, b) => {
            let x = part(trees, known, locals, a)?;
            with(trees, known, locals, x, b, Two::Or)
        }
        ExprNode::Choice(c, a, b) => {
            let z = part(trees, known, locals, c)?;
            let x = part(trees, known, locals, a)?;
            let y = part(trees, known, locals, b)?;
            choice(trees, z, x, y)
        }
        ExprNode::Assign(a, b) => {
            let x = part(trees, known, locals, a)?;
            with(trees, known, locals, x, b, Two::Assign)
        }
        ExprNode::Update(op, a, b) => {
            let x = part(trees, known, locals, a)?;
            with(trees, known, locals, x, b, Two::Update(*op))
        }
        ExprNode::Call(name, list) => many(trees, known, locals, list, Many::Call(name.as_str())),
        ExprNode::Element(name, a) => one(trees, known, locals, a, One::Element(name.as_str())),
        ExprNode::Arrow(a, name) => one(trees, known, locals, a, One::Field(name.text.as_str())),
        ExprNode::Dot(_, _) => constant(trees, Int::I32(0)),
        ExprNode::Print {
            format,
            arguments,
            ..
        } => many(
            trees,
            known,
            locals,
            arguments,
            Many::Print(format.as_str()),
        ),
        ExprNode::Calloc(tag) => calloc(trees, tag.text.as_str()),
        ExprNode::Free(a) => one(trees, known, locals, a, One::Free),
        ExprNode::Create(a, name, b) => {
            let x = part(trees, known, locals, a)?;
            with(trees, known, locals, x, b, Two::Create(name.text.as_str()))
        }
        ExprNode::Join(a) => one(trees, known, locals, a, One::Join),
        ExprNode::JoinInto(a, b) => {
            let x = part(trees, known, locals, a)?;
            with(trees, known, locals, x, b, Two::JoinInto)
        }
        ExprNode::InitMutex(name) => init_mutex(trees, name.text.as_str()),
        ExprNode::Lock(name) => lock(trees, name.text.as_str()),
        ExprNode::Unlock(name) => unlock(trees, name.text.as_str()),
    }
}

/// A part of an expression.
#[cycle(resolve)]
fn part(
    trees: &mut Trees,
    known: &Known,
    locals: &[Local],
    expr: &Boxed<Expr>,
) -> Result<Found, AllocError>
    ensures found { IfOk result (λ r. (u : Table) → Grows (table trees.new) u
        → found u r ≡ resolved (known_of known.now) (locals_of locals.now) (bare_expr expr.now)) }
    ensures within { IfOk result (λ r. IsIn (table trees.new) (in_found r)) }
    ensures grows { Grows (table trees.old) (table trees.new) }
{
    resolve(trees, known, locals, expr.get())
}

/// A form of one part.
#[cycle(resolve)]
fn one(
    trees: &mut Trees,
    known: &Known,
    locals: &[Local],
    a: &Boxed<Expr>,
    form: One,
) -> Result<Found, AllocError>
    ensures found { IfOk result (λ r. (u : Table) → Grows (table trees.new) u
        → found u r ≡ of_one (known_of known.now) form.entry (resolved (known_of known.now) (locals_of locals.now) (bare_expr a.now))) }
    ensures within { IfOk result (λ r. IsIn (table trees.new) (in_found r)) }
    ensures grows { Grows (table trees.old) (table trees.new) }
{
    let x = part(trees, known, locals, a)?;
    made_of_one(trees, known, form, x)
}

/// A form of two parts, of which the first was resolved.
#[cycle(resolve)]
fn with(
    trees: &mut Trees,
    known: &Known,
    locals: &[Local],
    x: Found,
    b: &Boxed<Expr>,
    form: Two,
) -> Result<Found, AllocError>
    requires { IsIn (table trees.old) (in_found x) }
    ensures found { IfOk result (λ r. (u : Table) → Grows (table trees.new) u
        → found u r ≡ of_two (known_of known.now) form.entry (found u x)
        (resolved (known_of known.now) (locals_of locals.now) (bare_expr b.now))) }
    ensures within { IfOk result (λ r. IsIn (table trees.new) (in_found r)) }
    ensures grows { Grows (table trees.old) (table trees.new) }
{
    let y = part(trees, known, locals, b)?;
    made_of_two(trees, known, form, x, y)
}

/// A form with arguments.
#[cycle(resolve)]
fn many(
    trees: &mut Trees,
    known: &Known,
    locals: &[Local],
    list: &List<Expr>,
    form: Many,
) -> Result<Found, AllocError>
    ensures found { IfOk result (λ r. (u : Table) → Grows (table trees.new) u
        → found u r ≡ of_many (known_of known.now) form.entry
        (resolved_all (known_of known.now) (locals_of locals.now) (bare_arguments (map bare_expr list.now)))) }
    ensures within { IfOk result (λ r. IsIn (table trees.new) (in_found r)) }
    ensures grows { Grows (table trees.old) (table trees.new) }
{
    let ids = all(trees, known, locals, list)?;
    made_of_many(trees, known, form, ids.as_slice())
}

/// The trees of several expressions.
#[cycle(resolve)]
fn all(
    trees: &mut Trees,
    known: &Known,
    locals: &[Local],
    list: &List<Expr>,
) -> Result<Vec<NodeId>, AllocError>
    ensures trees { IfOk result (λ ids. (u : Table) → Grows (table trees.new) u
        → map (expression_at u) ids.items ≡ map (tree_of (known_of known.now) (locals_of locals.now)) (map bare_expr list.now)) }
    ensures within { IfOk result (λ ids. IsIn (table trees.new) (each_node ids.items)) }
    ensures grows { Grows (table trees.old) (table trees.new) }
{
    let mut ids = Vec::new(trees.allocator());
    for expr in list.as_slice() {
        let found = resolve(trees, known, locals, expr)?;
        let id = tree(trees, found)?;
        ids.push(id)?;
    }
    Ok(ids)
}
