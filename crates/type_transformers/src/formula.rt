//! Expressions of transformers, with the names in them resolved.
ghost use Rattle.std.specs.Prelude.{◌≡◌, List, Ok, IfOk, slice_index_or};
ghost use Rattle.std.specs.Option.{option_map_or};
ghost use Rattle.c_tree.specs.Bare.{bare_expr};
ghost use Rattle.c_semantics.specs.Values.{Value, Number, int_of, is_true};
ghost use Rattle.c_semantics.specs.Constants.{wrapped, wrapped_unary, chosen};
ghost use Rattle.constant_values.specs.Kinds.{converted_to_kind};
ghost use Rattle.versioned_structs.specs.Formulas.{value_in};
ghost use Rattle.type_transformers.specs.Old.{old_in, IsFormulaOf};

use crate::layout::place_in;
use c_ints::{BinOp, Int, UnOp};
use c_tree::{Binding, Expr, ExprNode, Name};
use constant_values::{ValueKind, kind_of};
use dsu_io::Boxed;
use std::alloc::{AllocError, Global};
use versioned_structs::{Formula, FormulaNode};

/// What the word `old` stands for.
#[derive(Clone, Copy)]
pub(crate) enum OldWord<'a> {
    /// An object of a struct with these fields.
    Object(&'a [Binding]),
    /// The value of a global, its first cell.
    Cell,
}

/// The formula of a transformer's expression. Its places are those of the fields in the old layout. A form that no
/// transformer can have is the `int` 0. It recurses as deep as the expression is.
#[cycle(formula)]
pub(crate) fn formula(alloc: Global, old: &OldWord, expr: &Expr) -> Result<Formula, AllocError>
    ensures { IfOk result (IsFormulaOf old.now (bare_expr expr.now)) }
{
    match &expr.node {
        ExprNode::Number(n) | ExprNode::Character(n) => Ok(number(*n)),
        ExprNode::Variable(_) => Ok(whole(old)),
        ExprNode::Dot(_, field) => Ok(field_of(old, field)),
        ExprNode::Unary(op, a) => unary(alloc, *op, part(alloc, old, a)?),
        ExprNode::Cast(to, a) => cast(alloc, kind_of(to), part(alloc, old, a)?),
        ExprNode::Binary(op, a, b) => {
            let (a, b) = both(part(alloc, old, a), part(alloc, old, b))?;
            binary(alloc, *op, a, b)
        }
        ExprNode::Choice(c, a, b) => {
            let c = part(alloc, old, c)?;
            let (a, b) = both(part(alloc, old, a), part(alloc, old, b))?;
            choice(alloc, c, a, b)
        }
        _ => Ok(number(Int::I32(0))),
    }
}

#[cycle(formula)]
fn part(alloc: Global, old: &OldWord, part: &Boxed<Expr>) -> Result<Formula, AllocError>
    ensures { IfOk result (IsFormulaOf old.now (bare_expr part.now)) }
{
    formula(alloc, old, part.get())
}

/// Two formulas, or the error of the first that failed.
fn both(
    a: Result<Formula, AllocError>,
    b: Result<Formula, AllocError>,
) -> Result<(Formula, Formula), AllocError>
    ensures { IfOk result (λ formulas. (a ≡ Ok formulas.0) × (b ≡ Ok formulas.1)) }
{
    Ok((a?, b?))
}

fn number(n: Int) -> Formula
    ensures { (values : List Value) → value_in values result ≡ Number n }
{
    Formula {
        node: FormulaNode::Constant(n),
    }
}

/// The old value at a place, or the `int` 0 where there is no place.
fn at(place: Option<usize>) -> Formula
    ensures { (values : List Value) → value_in values result ≡ option_map_or (λ i. slice_index_or values i (int_of 0)) place (int_of 0) }
{
    match place {
        Some(place) => Formula {
            node: FormulaNode::Old(place),
        },
        None => number(Int::I32(0)),
    }
}

/// `old` by itself. An object has no value of its own.
fn whole(old: &OldWord) -> Formula
    ensures { (values : List Value) → value_in values result ≡ (old_in old.now values).whole }
{
    match old {
        OldWord::Object(_) => number(Int::I32(0)),
        OldWord::Cell => at(Some(0)),
    }
}

/// `old.f`. A global's value has no fields.
fn field_of(old: &OldWord, field: &Name) -> Formula
    ensures { (values : List Value) → value_in values result ≡ (old_in old.now values).field field.now.text }
{
    match old {
        OldWord::Object(fields) => at(place_in(fields, field.text.as_str())),
        OldWord::Cell => number(Int::I32(0)),
    }
}

fn unary(alloc: Global, op: UnOp, a: Formula) -> Result<Formula, AllocError>
    ensures { IfOk result (λ formula. (values : List Value) → value_in values formula ≡ wrapped_unary op (value_in values a)) }
{
    Ok(Formula {
        node: FormulaNode::Unary(op, Boxed::of(alloc, a)?),
    })
}

fn cast(alloc: Global, to: ValueKind, a: Formula) -> Result<Formula, AllocError>
    ensures { IfOk result (λ formula. (values : List Value) → value_in values formula ≡ converted_to_kind to (value_in values a)) }
{
    Ok(Formula {
        node: FormulaNode::Cast(to, Boxed::of(alloc, a)?),
    })
}

fn binary(alloc: Global, op: BinOp, a: Formula, b: Formula) -> Result<Formula, AllocError>
    ensures { IfOk result (λ formula. (values : List Value) → value_in values formula ≡ wrapped op (value_in values a) (value_in values b)) }
{
    Ok(Formula {
        node: FormulaNode::Binary(op, Boxed::of(alloc, a)?, Boxed::of(alloc, b)?),
    })
}

fn choice(alloc: Global, c: Formula, a: Formula, b: Formula) -> Result<Formula, AllocError>
    ensures { IfOk result (λ formula. (values : List Value)
        → value_in values formula ≡ chosen (is_true (value_in values c)) (value_in values a) (value_in values b)) }
{
    Ok(Formula {
        node: FormulaNode::Choice(
            Boxed::of(alloc, c)?,
            Boxed::of(alloc, a)?,
            Boxed::of(alloc, b)?,
        ),
    })
}
