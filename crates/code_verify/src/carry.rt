//! What an instruction brings to the places to which it leads.
ghost use Rattle.std.specs.Prelude.{◌≡◌, ℕ, suc, ◌<◌, ◌≤◌, vec_len, Option, option_map, is_some, MatchBool, IfOk};
ghost use Rattle.code_kinds.specs.WellFormed.{Shapes};
ghost use Rattle.code_verify.specs.Meeting.{met as met_of, met_again as met_again_of};
ghost use Rattle.code_verify.specs.Passing.{Brought, Carried, Refused, AllCarried, SomeRefused};
ghost use Rattle.code_verify.specs.Seen.{shape_of, shapes_of, keeps_of};
ghost use Rattle.code_verify.specs.Ways.{ways_of};

use crate::meeting::met;
use crate::shape::Shape;
use crate::ways::Ways;
use std::alloc::{AllocError, Global};

/// The shape that is known at a place.
pub(crate) fn shape_at(known: &[Option<Shape>], place: usize) -> Option<&Shape>
    ensures { option_map (λ s. shape_of s.now) result ≡ shapes_of known.now place }
{
    match known.get(place) {
        Some(Some(shape)) => Some(shape),
        _ => None,
    }
}

/// How many variables a place keeps, if a loop begins there.
fn keeps_at(keeps: &[Option<u32>], place: usize) -> Option<u32>
    ensures { result ≡ keeps_of keeps.now place }
{
    match keeps.get(place) {
        Some(many) => *many,
        None => None,
    }
}

/// What is known at a place after a way has come.
fn met_at(
    known: &[Option<Shape>],
    keeps: &[Option<u32>],
    shape: Shape,
    place: usize,
) -> Option<Shape>
    ensures { option_map shape_of result ≡ met_of (keeps_of keeps.now place) (shapes_of known.now place) (shape_of shape) }
{
    met(keeps_at(keeps, place), shape_at(known, place), shape)
}

/// Brings a shape to a place, if it fits there.
pub(crate) fn bring(
    known: &mut Vec<Option<Shape>>,
    keeps: &[Option<u32>],
    shape: Shape,
    place: usize,
) -> bool
    ensures length { vec_len known.new ≡ vec_len known.old }
    ensures brings { MatchBool result
        (Brought (keeps_of keeps.now) (vec_len known.old) (shapes_of known.old.items) (shapes_of known.new.items) (shape_of shape) place)
        (place < vec_len known.old → met_of (keeps_of keeps.now place) (shapes_of known.old.items place) (shape_of shape) ≡ Option.None) }
{
    if place >= known.len() {
        return false;
    }
    let Some(made) = met_at(known.as_slice(), keeps, shape, place) else {
        return false;
    };
    known[place] = Some(made);
    true
}

/// Whether a shape fits where something is known already.
fn returns(known: &[Option<Shape>], keeps: &[Option<u32>], shape: Shape, place: usize) -> bool
    ensures { result ≡ is_some (met_again_of (keeps_of keeps.now place) (shapes_of known.now place) (shape_of shape)) }
{
    match shape_at(known, place) {
        Some(there) => met(keeps_at(keeps, place), Some(there), shape).is_some(),
        None => false,
    }
}

/// Brings a shape from one place to another, if it fits there.
fn carry(
    alloc: Global,
    known: &mut Vec<Option<Shape>>,
    keeps: &[Option<u32>],
    from: usize,
    shape: &Shape,
    to: usize,
) -> Result<bool, AllocError>
    ensures length { IfOk result (λ fits. vec_len known.new ≡ vec_len known.old) }
    ensures carries { IfOk result (λ fits. MatchBool fits
        (Carried (keeps_of keeps.now) (vec_len known.old) from (shapes_of known.old.items) (shapes_of known.new.items) (shape_of shape.now) to)
        (Refused (keeps_of keeps.now) (vec_len known.old) from (shapes_of known.old.items) (shape_of shape.now) to)) }
{
    let copy = shape.copy(alloc)?;
    if from < to {
        Ok(bring(known, keeps, copy, to))
    } else {
        Ok(returns(known.as_slice(), keeps, copy, to))
    }
}

/// Brings a shape to the next place, and to one so many places after that.
fn carry_either(
    alloc: Global,
    known: &mut Vec<Option<Shape>>,
    keeps: &[Option<u32>],
    from: usize,
    shape: &Shape,
    over: u32,
) -> Result<bool, AllocError>
    requires { from < vec_len known.old }
    ensures length { IfOk result (λ fits. vec_len known.new ≡ vec_len known.old) }
    ensures carries { IfOk result (λ fits. MatchBool fits
        (AllCarried (keeps_of keeps.now) (vec_len known.old) from (shape_of shape.now) (ways_of from (Ways.Either over)) (shapes_of known.old.items) (shapes_of known.new.items))
        (SomeRefused (keeps_of keeps.now) (vec_len known.old) from (shape_of shape.now) (ways_of from (Ways.Either over)) (shapes_of known.old.items))) }
{
    let fits = carry(alloc, known, keeps, from, shape, from + 1)?;
    if !fits {
        return Ok(false);
    }
    carry(alloc, known, keeps, from, shape, from + 1 + over as usize)
}

/// Brings a shape to all places to which control goes.
pub(crate) fn carry_all(
    alloc: Global,
    known: &mut Vec<Option<Shape>>,
    keeps: &[Option<u32>],
    from: usize,
    shape: &Shape,
    ways: Ways,
) -> Result<bool, AllocError>
    requires { from < vec_len known.old }
    ensures length { IfOk result (λ fits. vec_len known.new ≡ vec_len known.old) }
    ensures carries { IfOk result (λ fits. MatchBool fits
        (AllCarried (keeps_of keeps.now) (vec_len known.old) from (shape_of shape.now) (ways_of from ways) (shapes_of known.old.items) (shapes_of known.new.items))
        (SomeRefused (keeps_of keeps.now) (vec_len known.old) from (shape_of shape.now) (ways_of from ways) (shapes_of known.old.items))) }
{
    match ways {
        Ways::On => carry(alloc, known, keeps, from, shape, from + 1),
        Ways::Over(over) => carry(alloc, known, keeps, from, shape, from + 1 + over as usize),
        Ways::Either(over) => carry_either(alloc, known, keeps, from, shape, over),
        Ways::Back(over) => carry(
            alloc,
            known,
            keeps,
            from,
            shape,
            from.saturating_sub(over as usize),
        ),
        Ways::Ends => Ok(true),
    }
}
