//! The newest values and the pending pieces.
ghost use Rattle.std.specs.Prelude.{◌≡◌, [], ◌∷◌, ◌++◌, map, drop, vec_len, ◌+◌, IfOk, IfSome, OnOk, MatchOption};
ghost use Rattle.resolved_tree.specs.Nodes.{Table};
ghost use Rattle.local_evaluation.specs.Pieces.{piece_of, pending};
ghost use Rattle.local_evaluation.specs.Values.{seen};
ghost use Rattle.local_evaluation.specs.Work.{newest};

use crate::piece::Piece;
use crate::value::Value;
use std::alloc::AllocError;

/// Takes the newest value.
pub(crate) fn pop(values: &mut Vec<Value>) -> Option<Value>
    ensures { MatchOption result
        ((newest values.old.items ≡ []) × (newest values.new.items ≡ []))
        (λ v. newest values.old.items ≡ seen v ∷ newest values.new.items) }
{
    values.pop()
}

/// Adds a value.
pub fn push(values: &mut Vec<Value>, value: Value) -> Result<(), AllocError>
    ensures { OnOk result (newest values.new.items ≡ seen value ∷ newest values.old.items) }
{
    values.push(value)?;
    Ok(())
}

/// Takes the first pending piece.
pub(crate) fn next(pieces: &mut Vec<Piece>) -> Option<Piece>
    ensures len { IfSome result (λ _. vec_len pieces.new + 1 ≡ vec_len pieces.old) }
    ensures first { (t : Table) → MatchOption result
        ((pending t pieces.old.items ≡ []) × (pending t pieces.new.items ≡ []))
        (λ p. pending t pieces.old.items ≡ piece_of t p ∷ pending t pieces.new.items) }
{
    pieces.pop()
}

/// Puts pieces before the others, the first one first.
pub fn put(pieces: &mut Vec<Piece>, made: &[Piece]) -> Result<(), AllocError>
    ensures { OnOk result ((t : Table)
        → pending t pieces.new.items ≡ map (piece_of t) made.now ++ pending t pieces.old.items) }
{
    let mut left = made.len();
    while left > 0 {
        left -= 1;
        pieces.push(made[left])?;
    }
    Ok(())
}

/// The newest value.
pub fn last(values: &[Value]) -> Option<Value>
    ensures { MatchOption result (newest values.now ≡ []) (λ v. newest values.now ≡ seen v ∷ drop 1 (newest values.now)) }
{
    values.last().copied()
}

/// Drops the newest value.
pub fn discard(values: &mut Vec<Value>)
    ensures { newest values.new.items ≡ drop 1 (newest values.old.items) }
{
    values.pop();
}
