ghost use Rattle.std.specs.Prelude.{◌≡◌};
ghost use Rattle.c_tree.specs.declared.expr.Expr.{Expr as Tree, out-Expr};
ghost use Rattle.c_tree.specs.declared.expr.Expr.TheFolds.{map-Expr};
ghost use Rattle.c_expr_types.specs.declared.found.Part.{Part as Seen};
ghost use Rattle.transformer_types.specs.Alone.{binary_of, cast_of, choice_of, field_of, found_alone, infer_alone, unary_of};
ghost use Rattle.transformer_types.specs.Views.{found_seen, old_seen, part_seen};

use crate::form::{binary, cast, choice, field, number, unary};
use crate::found::{Found, Old, Part};
use c_ints::{BinOp, UnOp};
use c_tree::{CType, Expr, ExprNode as Node, Name};
use dsu_io::Boxed;

/// What an expression of a transformer is found to be. A form that no transformer has is `Found::Nothing`.
#[cycle(infer)]
pub(crate) fn infer<'a>(old: Old<'a>, expr: &'a Expr) -> Part<'a>
    ensures { part_seen result ≡ infer_alone (old_seen old.entry) expr.now }
{
    Part {
        place: expr.place,
        found: infer_form(old, expr),
    }
}

/// What it is found to be, by its form and its parts.
#[cycle(infer)]
fn infer_form<'a>(old: Old<'a>, expr: &'a Expr) -> Found<'a>
    ensures { let tree = out-Expr expr.now in let old = old_seen old.entry in
        found_seen result ≡ found_alone old tree.place (map-Expr Tree Seen (infer_alone old) tree).node }
{
    let at = expr.place;
    match &expr.node {
        Node::Number(n) => number(*n),
        Node::Character(n) => Found::Integer(n.kind()),
        Node::Null => Found::Null,
        Node::Variable(_) => old.by_itself(),
        Node::Unary(op, a) => infer_unary(old, *op, a),
        Node::Cast(to, a) => infer_cast(old, to, a),
        Node::Binary(op, a, b) => infer_binary(old, at, *op, a, b),
        Node::Choice(a, b, c) => infer_choice(old, at, a, b, c),
        Node::Dot(a, name) => infer_field(old, a, name),
        _ => Found::Nothing,
    }
}

#[cycle(infer)]
fn infer_part<'a>(old: Old<'a>, a: &'a Boxed<Expr>) -> Part<'a>
    ensures { part_seen result ≡ infer_alone (old_seen old.entry) a.now }
{
    infer(old, a.get())
}

/// `op a`
#[cycle(infer)]
fn infer_unary<'a>(old: Old<'a>, op: UnOp, a: &'a Boxed<Expr>) -> Found<'a>
    ensures { found_seen result ≡ unary_of op (infer_alone (old_seen old.entry) a.now) }
{
    unary(op, infer_part(old, a))
}

/// `(T) a`
#[cycle(infer)]
fn infer_cast<'a>(old: Old<'a>, to: &'a CType, a: &'a Boxed<Expr>) -> Found<'a>
    ensures { found_seen result ≡ cast_of to.now (infer_alone (old_seen old.entry) a.now) }
{
    cast(to, infer_part(old, a))
}

/// `a op b`
#[cycle(infer)]
fn infer_binary<'a>(
    old: Old<'a>,
    at: usize,
    op: BinOp,
    a: &'a Boxed<Expr>,
    b: &'a Boxed<Expr>,
) -> Found<'a>
    ensures { let part = infer_alone (old_seen old.entry) in found_seen result ≡ binary_of op at (part a.now) (part b.now) }
{
    binary(at, op, infer_part(old, a), infer_part(old, b))
}

/// `a ? b : c`
#[cycle(infer)]
fn infer_choice<'a>(
    old: Old<'a>,
    at: usize,
    a: &'a Boxed<Expr>,
    b: &'a Boxed<Expr>,
    c: &'a Boxed<Expr>,
) -> Found<'a>
    ensures { let part = infer_alone (old_seen old.entry) in
        found_seen result ≡ choice_of at (part a.now) (part b.now) (part c.now) }
{
    choice(
        at,
        infer_part(old, a),
        infer_part(old, b),
        infer_part(old, c),
    )
}

/// `a.name`
#[cycle(infer)]
fn infer_field<'a>(old: Old<'a>, a: &'a Boxed<Expr>, name: &'a Name) -> Found<'a>
    ensures { let seen = old_seen old.entry in found_seen result ≡ field_of seen (infer_alone seen a.now) name.now }
{
    field(old, infer_part(old, a), name)
}
