//! How the cells of a global of changed type come from the old ones.
ghost use Rattle.std.specs.Prelude.{◌≡◌, ◌-◌, ◌++◌, List, map, length, take, replicate, Option, Some, true, option_map, option_copied, IfOk};
ghost use Rattle.c_tree.specs.Bare.{bare_expr, bare_type, bare_declaration, bare_array, bare_kind};
ghost use Rattle.c_tree.specs.BareExpr.{BareExpr};
ghost use Rattle.c_tree.specs.BareDef.{Global as GlobalIs};
ghost use Rattle.c_semantics.specs.Constants.{elements as elements_of};
ghost use Rattle.local_evaluation.specs.Values.{seen};
ghost use Rattle.constant_values.specs.Kinds.{zero_of_kind};
ghost use Rattle.type_transformers.specs.Cells.{cells_by};
ghost use Rattle.type_transformers.specs.Globals.{IsGlobalBy, is_variable as is_variable_def, is_array_of as is_array_of_def};

use crate::formula::{OldWord, formula};
use c_ints::Int;
use c_tree::{Array, CType, Declaration, DefKind, Expr, same_type};
use constant_values::{ValueKind, converted, kind_of, zero};
use local_evaluation::Value;
use std::alloc::{AllocError, Global};
use versioned_structs::Formula;

/// How the cells of a global of changed type come from the old ones, with what the newer text has: how many cells, and of
/// which kind.
#[derive(Drop)]
pub enum GlobalChange {
    /// One cell, the value of a formula over the old cell, converted to that kind.
    Given(ValueKind, Formula),
    /// The old cells below the shorter length, and zeros after them.
    Copied(usize, ValueKind),
    /// Zeros.
    Zero(usize, ValueKind),
}

/// How the cell of a variable comes, by what the older text defines by its name and by the expression of its transformer.
pub(crate) fn variable_change(
    alloc: Global,
    old: &DefKind,
    new: &Declaration,
    given: Option<&Expr>,
) -> Result<GlobalChange, AllocError>
    ensures { IfOk result (IsGlobalBy (Some (bare_kind old.now)) (Some (GlobalIs (bare_declaration new.now))) (option_map bare_expr (option_copied given.entry))) }
{
    let Some(value) = given else {
        return Ok(GlobalChange::Zero(1, kind_of(&new.declared)));
    };
    if is_variable(old) {
        given_cell(alloc, old, new, value)
    } else {
        Ok(GlobalChange::Zero(1, kind_of(&new.declared)))
    }
}

/// The cell of a variable with a transformer, which is a variable in the older text.
fn given_cell(
    alloc: Global,
    old: &DefKind,
    new: &Declaration,
    value: &Expr,
) -> Result<GlobalChange, AllocError>
    requires { is_variable_def (bare_kind old.now) ≡ true }
    ensures { IfOk result (IsGlobalBy (Some (bare_kind old.now)) (Some (GlobalIs (bare_declaration new.now))) (Some (bare_expr value.now))) }
{
    let formula = formula(alloc, &OldWord::Cell, value)?;
    Ok(GlobalChange::Given(kind_of(&new.declared), formula))
}

/// Whether a variable is defined.
fn is_variable(kind: &DefKind) -> bool
    ensures { result ≡ is_variable_def (bare_kind kind.now) }
{
    matches!(kind, DefKind::Global(_))
}

/// How the cells of an array come, by what the older text defines by its name.
pub(crate) fn array_change(old: &DefKind, new: &Array) -> GlobalChange
    ensures { (given : Option BareExpr) → IsGlobalBy (Some (bare_kind old.now)) (Some (bare_array new.now)) given result }
{
    let length = elements(new.length.value);
    let kind = kind_of(&new.element);
    if is_array_of(old, &new.element) {
        GlobalChange::Copied(length, kind)
    } else {
        GlobalChange::Zero(length, kind)
    }
}

/// Whether an array is defined whose elements have a type.
fn is_array_of(kind: &DefKind, element: &CType) -> bool
    ensures { result ≡ is_array_of_def (bare_kind kind.now) (bare_type element.now) }
{
    match kind {
        DefKind::Array(array) => same_type(&array.element, element),
        _ => false,
    }
}

/// How many elements an array has.
fn elements(length: Int) -> usize
    ensures { result ≡ elements_of length }
{
    length.value().unsigned_abs() as usize
}

/// The new cells, from the old ones. A length that doesn't fit in memory is reported as out of memory.
pub fn cells_after(
    alloc: Global,
    change: &GlobalChange,
    cells: &[Value],
) -> Result<Vec<Value>, AllocError>
    ensures { IfOk result (λ new. map seen new.items ≡ cells_by change.now (map seen cells.now)) }
{
    match change {
        GlobalChange::Given(kind, formula) => {
            Vec::from_slice(alloc, &[converted(*kind, formula.value(cells))])
        }
        GlobalChange::Copied(count, kind) => filled(alloc, *count, *kind, cells),
        GlobalChange::Zero(count, kind) => filled(alloc, *count, *kind, &[]),
    }
}

/// Cells, cut or filled with zeros to a number.
fn filled(
    alloc: Global,
    count: usize,
    kind: ValueKind,
    cells: &[Value],
) -> Result<Vec<Value>, AllocError>
    ensures { IfOk result (λ new. map seen new.items
        ≡ take count (map seen cells.now) ++ replicate (count - length cells.now) (zero_of_kind kind)) }
{
    let mut new = Vec::from_slice(alloc, cells)?;
    new.resize(count, zero(kind))?;
    Ok(new)
}
