ghost use Rattle.std.specs.Prelude.{◌≡◌, ◌&&◌, IfOk, OnOk, map, min, nat_le, option_map};
ghost use Rattle.c_types.specs.Definitions.{max_need};
ghost use Rattle.c_definitions.specs.Lookup.{member};
ghost use Rattle.c_definitions.specs.Lookup.{members_of};
ghost use Rattle.c_expr_types.specs.Need.{greatest, need};
ghost use Rattle.c_types.specs.TransformSyntax.{transforms_fields, form_of, is_global, is_transforming, transforms_struct};
ghost use Rattle.c_definitions.specs.Views.{meaning_seen};

use c_definitions::{Known, Meaning};
use c_expr_types::{MOST_NEED, is_safe, need};
use c_scope::Scopes;
use c_tree::{Expr, ExprNode as Node, FieldValue};
use dsu_io::Boxed;
use std::alloc::{AllocError, Global};

/// Whether an expression is the name `old`.
fn is_old(known: &Known, expr: &Expr) -> bool
    ensures { result ≡ (form_of known.now expr.now).is_old }
{
    match &expr.node {
        Node::Variable(name) => name.as_str() == "old",
        _ => false,
    }
}

/// Whether a transformer's expression has only operators and names that are allowed.
#[cycle(is_transforming)]
pub(crate) fn is_transforming(known: &Known, expr: &Expr) -> bool
    ensures { result ≡ is_transforming known.now expr.now }
{
    match &expr.node {
        Node::Number(_) | Node::Character(_) | Node::Null => true,
        Node::Variable(name) => name.as_str() == "old",
        Node::Unary(_, a) => part(known, a),
        Node::Cast(to, a) => known.is_known(to) && part(known, a),
        Node::Binary(op, a, b) => is_safe(*op) && part(known, a) && part(known, b),
        Node::Choice(a, b, c) => part(known, a) && part(known, b) && part(known, c),
        Node::Dot(a, _) => is_old(known, a.get()),
        _ => false,
    }
}

#[cycle(is_transforming)]
fn part(known: &Known, a: &Boxed<Expr>) -> bool
    ensures { result ≡ is_transforming known.now a.now }
{
    is_transforming(known, a.get())
}

/// Whether a global variable or array is meant.
pub(crate) fn is_global(meaning: &Option<Meaning>) -> bool
    ensures { result ≡ is_global (option_map meaning_seen meaning.now) }
{
    matches!(
        meaning,
        Some(Meaning::Variable(_)) | Some(Meaning::Array(_))
    )
}

/// The greatest need of the values that fields are given, or 65 where it is greater.
fn values_need(values: &[FieldValue]) -> u32
    ensures { result ≡ min (greatest (map (λ v. need v.value) values.now)) 65 }
{
    let mut most = 0;
    let mut i = values.len();
    while i > 0 {
        i -= 1;
        most = need(&values[i].value).max(most);
    }
    most
}

/// Whether the needs of the values that fields are given are within the limit.
pub(crate) fn are_light(values: &[FieldValue]) -> bool
    ensures { result ≡ nat_le (greatest (map (λ v. need v.value) values.now)) max_need }
{
    values_need(values) <= MOST_NEED
}

/// Whether the need of an expression is within the limit.
pub(crate) fn is_light(expr: &Expr) -> bool
    ensures { result ≡ nat_le (need expr.now) max_need }
{
    need(expr) <= MOST_NEED
}
