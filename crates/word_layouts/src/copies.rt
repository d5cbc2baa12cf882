//! Copies of transforms.
ghost use Rattle.std.specs.Prelude.{◌≡◌, List, IfOk, Ok};
ghost use Rattle.c_semantics.specs.Values.{Value as Seen, is_true};
ghost use Rattle.c_semantics.specs.Constants.{chosen, wrapped, wrapped_unary};
ghost use Rattle.constant_values.specs.Kinds.{converted_to_kind};
ghost use Rattle.versioned_structs.specs.Formulas.{value_in};
ghost use Rattle.word_layouts.specs.Copies.{AreCopies, IsCopy, IsFormulaCopy};

use c_ints::{BinOp, UnOp};
use constant_values::ValueKind;
use dsu_io::Boxed;
use std::alloc::{AllocError, Global};
use versioned_structs::{FieldChange, Formula, FormulaNode, Transform};

/// A transform that gives the same fields.
pub(crate) fn copied(alloc: Global, transform: &Transform) -> Result<Transform, AllocError>
    ensures { IfOk result (AreCopies transform.now) }
{
    let changes = transform.as_slice();
    let mut copies = Vec::with_capacity(alloc, changes.len())?;
    for change in changes {
        let copy = field_change(alloc, change)?;
        copies.push(copy)?;
    }
    Ok(Transform::of(copies))
}

/// A change that gives the same field.
fn field_change(alloc: Global, change: &FieldChange) -> Result<FieldChange, AllocError>
    ensures { IfOk result (IsCopy change.now) }
{
    match change {
        FieldChange::Copied(place) => Ok(FieldChange::Copied(*place)),
        FieldChange::Zero(kind) => Ok(FieldChange::Zero(*kind)),
        FieldChange::Given(kind, given) => Ok(FieldChange::Given(*kind, formula(alloc, given)?)),
    }
}

/// A formula that has the same values. It recurses as deep as the formula is.
#[cycle(formula_copy)]
fn formula(alloc: Global, from: &Formula) -> Result<Formula, AllocError>
    ensures { IfOk result (IsFormulaCopy from.now) }
{
    match &from.node {
        FormulaNode::Constant(n) => Ok(Formula {
            node: FormulaNode::Constant(*n),
        }),
        FormulaNode::Old(place) => Ok(Formula {
            node: FormulaNode::Old(*place),
        }),
        FormulaNode::Unary(op, a) => unary(alloc, *op, part(alloc, a)?),
        FormulaNode::Cast(kind, a) => cast(alloc, *kind, part(alloc, a)?),
        FormulaNode::Binary(op, a, b) => {
            let (a, b) = both(part(alloc, a), part(alloc, b))?;
            binary(alloc, *op, a, b)
        }
        FormulaNode::Choice(c, a, b) => {
            let c = part(alloc, c)?;
            let (a, b) = both(part(alloc, a), part(alloc, b))?;
            choice(alloc, c, a, b)
        }
    }
}

#[cycle(formula_copy)]
fn part(alloc: Global, from: &Boxed<Formula>) -> Result<Formula, AllocError>
    ensures { IfOk result (IsFormulaCopy from.now) }
{
    formula(alloc, from.get())
}

/// Two formulas, or the error of the first that failed.
fn both(
    a: Result<Formula, AllocError>,
    b: Result<Formula, AllocError>,
) -> Result<(Formula, Formula), AllocError>
    ensures { IfOk result (λ formulas. (a ≡ Ok formulas.0) × (b ≡ Ok formulas.1)) }
{
    Ok((a?, b?))
}

fn unary(alloc: Global, op: UnOp, a: Formula) -> Result<Formula, AllocError>
    ensures { IfOk result (λ formula. (old : List Seen) → value_in old formula ≡ wrapped_unary op (value_in old a)) }
{
    Ok(Formula {
        node: FormulaNode::Unary(op, Boxed::of(alloc, a)?),
    })
}

fn cast(alloc: Global, to: ValueKind, a: Formula) -> Result<Formula, AllocError>
    ensures { IfOk result (λ formula. (old : List Seen) → value_in old formula ≡ converted_to_kind to (value_in old a)) }
{
    Ok(Formula {
        node: FormulaNode::Cast(to, Boxed::of(alloc, a)?),
    })
}

fn binary(alloc: Global, op: BinOp, a: Formula, b: Formula) -> Result<Formula, AllocError>
    ensures { IfOk result (λ formula. (old : List Seen) → value_in old formula ≡ wrapped op (value_in old a) (value_in old b)) }
{
    Ok(Formula {
        node: FormulaNode::Binary(op, Boxed::of(alloc, a)?, Boxed::of(alloc, b)?),
    })
}

fn choice(alloc: Global, c: Formula, a: Formula, b: Formula) -> Result<Formula, AllocError>
    ensures { IfOk result (λ formula. (old : List Seen)
        → value_in old formula ≡ chosen (is_true (value_in old c)) (value_in old a) (value_in old b)) }
{
    Ok(Formula {
        node: FormulaNode::Choice(
            Boxed::of(alloc, c)?,
            Boxed::of(alloc, a)?,
            Boxed::of(alloc, b)?,
        ),
    })
}
