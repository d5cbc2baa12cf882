ghost use Rattle.std.specs.Prelude.{◌≡◌, IfOk};
ghost use Rattle.c_expr_types.specs.Expressions.{part};
ghost use Rattle.c_definitions.specs.Views.{names_seen};
ghost use Rattle.c_expr_types.specs.Views.{one_part, two_parts};

use crate::found::{Found, Part};
use crate::infer_node::{
    arrow, assign, binary, cast, create, dot, free, indexed, join, join_into, junction, step,
    unary, update,
};
use c_definitions::Names;
use c_ints::{BinOp, UnOp};
use c_tree::{CType, Name, StepOp};
use dsu_io::Text;
use std::alloc::AllocError;

/// A form of expression with one part, without the part.
#[derive(Clone, Copy)]
pub enum OnePart<'a> {
    /// `op a`
    Unary(UnOp),
    /// `++a` and the like
    Step(StepOp),
    /// `(T) a`
    Cast(&'a CType),
    /// `name[a]`
    Element(&'a Text),
    /// `a->name`
    Arrow(&'a Name),
    /// `a.name`
    Dot(&'a Name),
    /// `free(a)`
    Free,
    /// `thrd_join(a, NULL)`
    Join,
}

/// A form of expression with two parts, without the parts.
#[derive(Clone, Copy)]
pub enum TwoParts<'a> {
    /// `a op b`
    Binary(BinOp),
    /// `a && b`
    And,
    /// `a || b`
    Or,
    /// `a = b`
    Assign,
    /// `a += b` and the like
    Update(BinOp),
    /// `thrd_create(&a, name, b)`
    Create(&'a Name),
    /// `thrd_join(a, &b)`
    JoinInto,
}

/// What an expression with one part is, by that part.
pub fn with_one_part(
    names: &Names,
    at: usize,
    shape: OnePart,
    a: &Part,
) -> Result<Found, AllocError>
    ensures { IfOk result (λ found. found ≡ (part (names_seen names.now) at (one_part shape.entry a.now)).found) }
{
    match shape {
        OnePart::Unary(op) => Ok(unary(names, at, op, a)),
        OnePart::Step(op) => step(names, at, op, a),
        OnePart::Cast(to) => cast(names, at, to, a),
        OnePart::Element(name) => indexed(names, at, name, a),
        OnePart::Arrow(name) => arrow(names, at, a, name),
        OnePart::Dot(name) => Ok(dot(names, at, a, name)),
        OnePart::Free => Ok(free(names, at, a)),
        OnePart::Join => Ok(join(names, at, a)),
    }
}

/// What an expression with two parts is, by those parts.
pub fn with_two_parts(
    names: &Names,
    at: usize,
    shape: TwoParts,
    a: &Part,
    b: &Part,
) -> Result<Found, AllocError>
    ensures { IfOk result (λ found. found ≡ (part (names_seen names.now) at (two_parts shape.entry a.now b.now)).found) }
{
    match shape {
        TwoParts::Binary(op) => binary(names, at, op, a, b),
        TwoParts::And => Ok(junction(names, at, a, b)),
        TwoParts::Or => Ok(junction(names, at, a, b)),
        TwoParts::Assign => assign(names, at, a, b),
        TwoParts::Update(op) => update(names, at, op, a, b),
        TwoParts::Create(name) => Ok(create(names, at, a, name, b)),
        TwoParts::JoinInto => Ok(join_into(names, at, a, b)),
    }
}
