ghost use Rattle.std.specs.Prelude.{IsTrue, ◌≡◌, ◌↔◌, map};
ghost use Rattle.c_tree.specs.Bare.{bare_arguments, bare_expr};

use crate::expr::{Expr, ExprNode as Node};
use crate::same::ctype::same_type;
use dsu_io::{Boxed, List};

/// Whether two expressions are the same but for their places.
#[cycle(same_expr)]
pub fn same_expr(a: &Expr, b: &Expr) -> bool
    ensures { IsTrue result ↔ (bare_expr a.now ≡ bare_expr b.now) }
{
    match &a.node {
        Node::Number(n) => match &b.node {
            Node::Number(m) => *m == *n,
            _ => false,
        },
        Node::Character(n) => match &b.node {
            Node::Character(m) => *m == *n,
            _ => false,
        },
        Node::Null => match &b.node {
            Node::Null => true,
            _ => false,
        },
        Node::Success => match &b.node {
            Node::Success => true,
            _ => false,
        },
        Node::Error => match &b.node {
            Node::Error => true,
            _ => false,
        },
        Node::Variable(name) => match &b.node {
            Node::Variable(other) => *other == *name,
            _ => false,
        },
        Node::Unary(op, x) => match &b.node {
            Node::Unary(p, y) => *p == *op && same_part(x, y),
            _ => false,
        },
        Node::Step(op, x) => match &b.node {
            Node::Step(p, y) => *p == *op && same_part(x, y),
            _ => false,
        },
        Node::Cast(to, x) => match &b.node {
            Node::Cast(p, y) => same_type(to, p) && same_part(x, y),
            _ => false,
        },
        Node::Binary(op, x, y) => match &b.node {
            Node::Binary(p, z, w) => *p == *op && same_part(x, z) && same_part(y, w),
            _ => false,
        },
        Node::And(x, y) => match &b.node {
            Node::And(z, w) => same_part(x, z) && same_part(y, w),
            _ => false,
        },
        Node::Or(x, y) => match &b.node {
            Node::Or(z, w) => same_part(x, z) && same_part(y, w),
            _ => false,
        },
        Node::Choice(x, y, z) => match &b.node {
            Node::Choice(p, q, r) => same_part(x, p) && same_part(y, q) && same_part(z, r),
            _ => false,
        },
        Node::Assign(x, y) => match &b.node {
            Node::Assign(z, w) => same_part(x, z) && same_part(y, w),
            _ => false,
        },
        Node::Update(op, x, y) => match &b.node {
            Node::Update(p, z, w) => *p == *op && same_part(x, z) && same_part(y, w),
            _ => false,
        },
        Node::Call(name, x) => match &b.node {
            Node::Call(other, y) => *other == *name && same_arguments(x, y),
            _ => false,
        },
        Node::Element(name, x) => match &b.node {
            Node::Element(other, y) => *other == *name && same_part(x, y),
            _ => false,
        },
        Node::Arrow(x, name) => match &b.node {
            Node::Arrow(y, other) => other.text == name.text && same_part(x, y),
            _ => false,
        },
        Node::Dot(x, name) => match &b.node {
            Node::Dot(y, other) => other.text == name.text && same_part(x, y),
            _ => false,
        },
        Node::Print {
            format: f,
            arguments: x,
            ..
        } => match &b.node {
            Node::Print {
                format: g,
                arguments: y,
                ..
            } => *f == *g && same_arguments(x, y),
            _ => false,
        },
        Node::Calloc(name) => match &b.node {
            Node::Calloc(other) => other.text == name.text,
            _ => false,
        },
        Node::Free(x) => match &b.node {
            Node::Free(y) => same_part(x, y),
            _ => false,
        },
        Node::Create(x, name, y) => match &b.node {
            Node::Create(z, other, w) => other.text == name.text
                && same_part(x, z)
                && same_part(y, w),
            _ => false,
        },
        Node::Join(x) => match &b.node {
            Node::Join(y) => same_part(x, y),
            _ => false,
        },
        Node::JoinInto(x, y) => match &b.node {
            Node::JoinInto(z, w) => same_part(x, z) && same_part(y, w),
            _ => false,
        },
        Node::InitMutex(name) => match &b.node {
            Node::InitMutex(other) => other.text == name.text,
            _ => false,
        },
        Node::Lock(name) => match &b.node {
            Node::Lock(other) => other.text == name.text,
            _ => false,
        },
        Node::Unlock(name) => match &b.node {
            Node::Unlock(other) => other.text == name.text,
            _ => false,
        },
    }
}

#[cycle(same_expr)]
fn same_part(a: &Boxed<Expr>, b: &Boxed<Expr>) -> bool
    ensures { IsTrue result ↔ (bare_expr a.now ≡ bare_expr b.now) }
{
    same_expr(a.get(), b.get())
}

#[cycle(same_expr)]
fn same_arguments(a: &List<Expr>, b: &List<Expr>) -> bool
    ensures { IsTrue result
        ↔ (bare_arguments (map bare_expr a.now) ≡ bare_arguments (map bare_expr b.now)) }
{
    same_exprs(a.as_slice(), b.as_slice())
}

/// Whether two lists hold the same expressions in order.
#[cycle(same_expr)]
pub fn same_exprs(a: &[Expr], b: &[Expr]) -> bool
    ensures { IsTrue result ↔ (map bare_expr a.now ≡ map bare_expr b.now) }
{
    if a.len() != b.len() {
        return false;
    }
    for i in 0..a.len() {
        if !same_expr(&a[i], &b[i]) {
            return false;
        }
    }
    true
}
