ghost use Rattle.std.specs.Prelude.{◌≡◌, IfOk};
ghost use Rattle.std.specs.List.{flat_map};
ghost use Rattle.c_types.specs.Definitions.{initial, initialiser_faults, initialiser, is_small_array, initialisers_of};
ghost use Rattle.c_expr_types.specs.Faults.{first};

use crate::limits::LONGEST_ARRAY;
use crate::size::greatest_need;
use c_definitions::{Known, Names, Position};
use c_expr_types::{Fault, MOST_NEED, Part, fits, infer, sooner};
use c_scope::Scopes;
use c_tree::{Array, CType, Expr};
use dsu_io::List;
use std::alloc::{AllocError, Global};

/// What an initialiser of a global is found to be.
fn initialiser(alloc: Global, known: &Known, expr: &Expr) -> Result<Part, AllocError>
    ensures { IfOk result (λ part. part ≡ initialiser known.now expr.now) }
{
    let scopes = Scopes::new(alloc);
    let names = Names {
        text: known,
        scopes: &scopes,
        position: Position::InInitialiser,
    };
    infer(alloc, &names, expr)
}

/// What is wrong with an initialiser of a global of a type.
fn initialiser_fault(
    alloc: Global,
    known: &Known,
    to: &CType,
    expr: &Expr,
) -> Result<Option<Fault>, AllocError>
    ensures { IfOk result (λ fault. fault ≡ first (initialiser_faults known.now to.now expr.now)) }
{
    let part = initialiser(alloc, known, expr)?;
    Ok(part.required(fits(known, to, &part.found)))
}

/// What is wrong with an initialiser of a global that may be absent.
pub(crate) fn initial(
    alloc: Global,
    known: &Known,
    to: &CType,
    expr: &Option<Expr>,
) -> Result<Option<Fault>, AllocError>
    ensures { IfOk result (λ fault. fault ≡ first (initial known.now to.now expr.now)) }
{
    match expr {
        Some(expr) => initialiser_fault(alloc, known, to, expr),
        None => Ok(None),
    }
}

/// The initialisers of an array.
pub(crate) fn initialisers_of(initial: &Option<List<Expr>>) -> &[Expr]
    ensures { result.now ≡ initialisers_of initial.now }
{
    match initial {
        Some(list) => list.as_slice(),
        None => &[],
    }
}

/// What is wrong with the initialisers of an array of elements of a type.
pub(crate) fn initialisers_fault(
    alloc: Global,
    known: &Known,
    to: &CType,
    exprs: &[Expr],
) -> Result<Option<Fault>, AllocError>
    ensures { IfOk result (λ fault. fault ≡ first (flat_map (initialiser_faults known.now to.now) exprs.now)) }
{
    let mut fault = None;
    for expr in exprs {
        fault = sooner(fault, initialiser_fault(alloc, known, to, expr)?);
    }
    Ok(fault)
}

/// Whether an array has a length from 1 on, a list that isn't longer, and small initialisers.
pub(crate) fn is_small_array(array: &Array) -> bool
    ensures { result ≡ is_small_array array.now }
{
    let length = array.length.value.value();
    let exprs = initialisers_of(&array.initial);
    1 <= length
        && length <= LONGEST_ARRAY
        && exprs.len() as i128 <= length
        && greatest_need(exprs) <= MOST_NEED
}
