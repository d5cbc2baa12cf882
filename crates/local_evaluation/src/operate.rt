//! What pieces do with the newest values.
ghost use Rattle.std.specs.Prelude.{◌≡◌, List, IfOk, OnOk, map, ◌++◌, ◌+◌, ◌≤◌};
ghost use Rattle.c_semantics.specs.Pieces.{Piece as SeenPiece, Scopes};
ghost use Rattle.c_semantics.specs.Values.{converted_to};
ghost use Rattle.c_semantics.specs.Evaluation.{local, apply, combine, change, as_truth, creation, drop, give, settle, copy, tuck_under, swap, dup, tuck, swap_part, get, set, choose};
ghost use Rattle.resolved_tree.specs.Nodes.{Table, type_of, place_of};
ghost use Rattle.local_evaluation.specs.declared.piece.Piece.TheVariants.{Get, Set};
ghost use Rattle.local_evaluation.specs.Ends.{ended};
ghost use Rattle.local_evaluation.specs.Pieces.{piece_of, pending};
ghost use Rattle.resolved_tree.specs.Trees.{table};
ghost use Rattle.local_evaluation.specs.Values.{seen, seen_result};
ghost use Rattle.local_evaluation.specs.Weights.{weight};
ghost use Rattle.local_evaluation.specs.Work.{newest, scopes_of, went};

use crate::piece::Piece;
use crate::scopes::{look_up, store};
use crate::stack::{pop, push, put};
use crate::value::Value;
use crate::work::{End, Work};
use c_ints::{ArithTrap, BinOp, UnOp};
use resolved_tree::{Place, Trees, ValueType};
use run_types::TrapKind;
use std::alloc::AllocError;

/// An operator's value, or its trap.
fn settle(
    values: &mut Vec<Value>,
    answer: Result<Value, ArithTrap>,
) -> Result<Option<End>, AllocError>
    ensures { IfOk result (λ end. (t : Table) (piece : Piece) (rest : List SeenPiece) (scopes : Scopes)
        → settle (seen_result answer) (newest values.old.items) scopes (local rest)
        ≡ went t (ended piece end) rest (newest values.new.items) scopes) }
{
    match answer {
        Ok(value) => {
            push(values, value)?;
            Ok(None)
        }
        Err(trap) => Ok(Some(End::Trap(TrapKind::from(trap)))),
    }
}

/// A unary operator on the newest value.
pub(crate) fn apply(values: &mut Vec<Value>, op: UnOp) -> Result<Option<End>, AllocError>
    ensures { IfOk result (λ end. (t : Table) (piece : Piece) (rest : List SeenPiece) (scopes : Scopes)
        → apply op (local rest) (newest values.old.items) scopes
        ≡ went t (ended piece end) rest (newest values.new.items) scopes) }
{
    let Some(a) = pop(values) else {
        return Ok(Some(End::Nothing));
    };
    settle(values, Value::unary(op, a))
}

/// A binary operator on the two newest values, of which the newest is the right one.
pub(crate) fn combine(values: &mut Vec<Value>, op: BinOp) -> Result<Option<End>, AllocError>
    ensures { IfOk result (λ end. (t : Table) (piece : Piece) (rest : List SeenPiece) (scopes : Scopes)
        → combine op (local rest) (newest values.old.items) scopes
        ≡ went t (ended piece end) rest (newest values.new.items) scopes) }
{
    let Some(b) = pop(values) else {
        return Ok(Some(End::Nothing));
    };
    let Some(a) = pop(values) else {
        return Ok(Some(End::Nothing));
    };
    settle(values, Value::binary(op, a, b))
}

/// The newest value converted.
pub(crate) fn convert(values: &mut Vec<Value>, to: ValueType) -> Result<Option<End>, AllocError>
    ensures { IfOk result (λ end. (t : Table) (piece : Piece) (rest : List SeenPiece) (scopes : Scopes)
        → change (converted_to (type_of t to)) (local rest) (newest values.old.items) scopes
        ≡ went t (ended piece end) rest (newest values.new.items) scopes) }
{
    let Some(value) = pop(values) else {
        return Ok(Some(End::Nothing));
    };
    push(values, value.converted_to(to))?;
    Ok(None)
}

/// The newest value as an `int` that is 0 or 1.
pub(crate) fn truth(values: &mut Vec<Value>) -> Result<Option<End>, AllocError>
    ensures { IfOk result (λ end. (t : Table) (piece : Piece) (rest : List SeenPiece) (scopes : Scopes)
        → change as_truth (local rest) (newest values.old.items) scopes
        ≡ went t (ended piece end) rest (newest values.new.items) scopes) }
{
    let Some(value) = pop(values) else {
        return Ok(Some(End::Nothing));
    };
    push(values, Value::truth(value.is_true()))?;
    Ok(None)
}

/// What `thrd_create` gives for the handle that it stored.
pub(crate) fn created(values: &mut Vec<Value>) -> Result<Option<End>, AllocError>
    ensures { IfOk result (λ end. (t : Table) (piece : Piece) (rest : List SeenPiece) (scopes : Scopes)
        → change creation (local rest) (newest values.old.items) scopes
        ≡ went t (ended piece end) rest (newest values.new.items) scopes) }
{
    let Some(value) = pop(values) else {
        return Ok(Some(End::Nothing));
    };
    push(values, value.creation())?;
    Ok(None)
}

/// A new value.
pub(crate) fn give(values: &mut Vec<Value>, value: Value) -> Result<Option<End>, AllocError>
    ensures { IfOk result (λ end. (t : Table) (piece : Piece) (rest : List SeenPiece) (scopes : Scopes)
        → give (seen value) (local rest) (newest values.old.items) scopes
        ≡ went t (ended piece end) rest (newest values.new.items) scopes) }
{
    push(values, value)?;
    Ok(None)
}

/// The newest value dropped.
pub(crate) fn discard(values: &mut Vec<Value>) -> Option<End>
    ensures { (t : Table) (piece : Piece) (rest : List SeenPiece) (scopes : Scopes)
        → drop (local rest) (newest values.old.items) scopes
        ≡ went t (ended piece result) rest (newest values.new.items) scopes }
{
    match pop(values) {
        Some(_) => None,
        None => Some(End::Nothing),
    }
}

/// A copy of a place's part, where it has one.
pub(crate) fn dup(values: &mut Vec<Value>, place: Place) -> Result<Option<End>, AllocError>
    ensures { IfOk result (λ end. (t : Table) (piece : Piece) (rest : List SeenPiece) (scopes : Scopes)
        → dup (place_of t place) (local rest) (newest values.old.items) scopes
        ≡ went t (ended piece end) rest (newest values.new.items) scopes) }
{
    match place {
        Place::Local(_) | Place::Global(_) => Ok(None),
        Place::Element(_, _) | Place::Field(_, _, _) => copy(values),
    }
}

/// A copy of the newest value.
fn copy(values: &mut Vec<Value>) -> Result<Option<End>, AllocError>
    ensures { IfOk result (λ end. (t : Table) (piece : Piece) (rest : List SeenPiece) (scopes : Scopes)
        → copy (local rest) (newest values.old.items) scopes
        ≡ went t (ended piece end) rest (newest values.new.items) scopes) }
{
    let Some(value) = pop(values) else {
        return Ok(Some(End::Nothing));
    };
    push(values, value)?;
    push(values, value)?;
    Ok(None)
}

/// A copy of the newest value under the place's part.
pub(crate) fn tuck(values: &mut Vec<Value>, place: Place) -> Result<Option<End>, AllocError>
    ensures { IfOk result (λ end. (t : Table) (piece : Piece) (rest : List SeenPiece) (scopes : Scopes)
        → tuck (place_of t place) (local rest) (newest values.old.items) scopes
        ≡ went t (ended piece end) rest (newest values.new.items) scopes) }
{
    match place {
        Place::Local(_) | Place::Global(_) => copy(values),
        Place::Element(_, _) | Place::Field(_, _, _) => tuck_under(values),
    }
}

/// A copy of the newest value under the one after it.
fn tuck_under(values: &mut Vec<Value>) -> Result<Option<End>, AllocError>
    ensures { IfOk result (λ end. (t : Table) (piece : Piece) (rest : List SeenPiece) (scopes : Scopes)
        → tuck_under (local rest) (newest values.old.items) scopes
        ≡ went t (ended piece end) rest (newest values.new.items) scopes) }
{
    let Some(a) = pop(values) else {
        return Ok(Some(End::Nothing));
    };
    let Some(b) = pop(values) else {
        return Ok(Some(End::Nothing));
    };
    push(values, a)?;
    push(values, b)?;
    push(values, a)?;
    Ok(None)
}

/// The value under the place's part comes up.
pub(crate) fn swap_part(values: &mut Vec<Value>, place: Place) -> Result<Option<End>, AllocError>
    ensures { IfOk result (λ end. (t : Table) (piece : Piece) (rest : List SeenPiece) (scopes : Scopes)
        → swap_part (place_of t place) (local rest) (newest values.old.items) scopes
        ≡ went t (ended piece end) rest (newest values.new.items) scopes) }
{
    match place {
        Place::Local(_) | Place::Global(_) => Ok(None),
        Place::Element(_, _) | Place::Field(_, _, _) => swap(values),
    }
}

/// The two newest values exchanged.
fn swap(values: &mut Vec<Value>) -> Result<Option<End>, AllocError>
    ensures { IfOk result (λ end. (t : Table) (piece : Piece) (rest : List SeenPiece) (scopes : Scopes)
        → swap (local rest) (newest values.old.items) scopes
        ≡ went t (ended piece end) rest (newest values.new.items) scopes) }
{
    let Some(a) = pop(values) else {
        return Ok(Some(End::Nothing));
    };
    let Some(b) = pop(values) else {
        return Ok(Some(End::Nothing));
    };
    push(values, a)?;
    push(values, b)?;
    Ok(None)
}

/// The read of a place whose parts are the newest values.
pub(crate) fn get(
    trees: &Trees,
    work: &mut Work,
    place: Place,
    n: u32,
) -> Result<Option<End>, AllocError>
    ensures meaning { IfOk result (λ end. let t = table trees.now in (rest : List SeenPiece)
        → get (place_of t place) n rest (local rest)
        (newest work.old.values.items) (scopes_of t work.old.scopes.items)
        ≡ went t (ended (Get place n) end) rest (newest work.new.values.items) (scopes_of t work.new.scopes.items)) }
    ensures pieces { work.new.pieces ≡ work.old.pieces }
{
    match place {
        Place::Local(name) => {
            let Some(value) = look_up(trees, &work.scopes, name) else {
                return Ok(Some(End::Nothing));
            };
            push(&mut work.values, value)?;
            Ok(None)
        }
        Place::Global(_) | Place::Element(_, _) | Place::Field(_, _, _) => Ok(Some(End::Here)),
    }
}

/// The write of a place whose parts are the newest values; the value stays.
pub(crate) fn set(trees: &Trees, work: &mut Work, place: Place, n: u32) -> Option<End>
    ensures meaning { let t = table trees.now in (rest : List SeenPiece)
        → set (place_of t place) n rest (local rest)
        (newest work.old.values.items) (scopes_of t work.old.scopes.items)
        ≡ went t (ended (Set place n) result) rest (newest work.new.values.items) (scopes_of t work.new.scopes.items) }
    ensures pieces { work.new.pieces ≡ work.old.pieces }
{
    match place {
        Place::Local(name) => {
            let Some(value) = work.values.last() else {
                return Some(End::Nothing);
            };
            store(trees, &mut work.scopes, name, *value);
            None
        }
        Place::Global(_) | Place::Element(_, _) | Place::Field(_, _, _) => Some(End::Here),
    }
}

/// A test of the newest value: some pieces where it is true, others where it isn't.
pub(crate) fn decide(
    work: &mut Work,
    yes: &[Piece],
    no: &[Piece],
) -> Result<Option<End>, AllocError>
    ensures meaning { IfOk result (λ end. (t : Table) (piece : Piece) (scopes : Scopes)
        → choose (local (map (piece_of t) yes.now ++ pending t work.old.pieces.items))
        (local (map (piece_of t) no.now ++ pending t work.old.pieces.items))
        (newest work.old.values.items) scopes
        ≡ went t (ended piece end) (pending t work.new.pieces.items) (newest work.new.values.items) scopes) }
    ensures scopes { work.new.scopes ≡ work.old.scopes }
    ensures falls { OnOk result ((t : Table) → weight (pending t work.new.pieces.items)
        ≤ weight (map (piece_of t) yes.now) + weight (map (piece_of t) no.now)
        + weight (pending t work.old.pieces.items)) }
{
    let Some(value) = pop(&mut work.values) else {
        return Ok(Some(End::Nothing));
    };
    if value.is_true() {
        put(&mut work.pieces, yes)?;
    } else {
        put(&mut work.pieces, no)?;
    }
    Ok(None)
}
