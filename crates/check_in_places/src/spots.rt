//! The check-ins of a body.
ghost use Rattle.std.specs.Prelude.{◌≡◌, ◌≤◌, ◌<◌, ◌+◌, ◌^◌, ◌++◌, ℕ, List, All, length, map, IfOk, OnOk};
ghost use Rattle.run_types.specs.Skeleton.{check_in_of as check_in_of_kind};
ghost use Rattle.skeletons.specs.Meaning.{kind_of, meant};
ghost use Rattle.check_in_places.specs.CheckIns.{check_in_if, check_ins_in};
ghost use Rattle.check_in_places.specs.Bodies.{shown, IsCounted, IsSpotOf, IsSectionOf};

use crate::section::{Section, Spot};
use name_sets::NameId;
use skeletons::{Point, PointKind, Skeleton};
use std::alloc::{AllocError, Global};

/// The check-ins of a function's body in the order of their places. `first` is the place in the flow of the body's first
/// point.
pub(crate) fn section_of(
    alloc: Global,
    function: NameId,
    first: usize,
    skeleton: &Skeleton,
    places: &[usize],
) -> Result<Section, AllocError>
    requires places { length places.now ≡ length skeleton.now.points.items }
    requires fits { first + length skeleton.now.points.items < 2 ^ 64 }
    ensures { IfOk result (λ section. (names : List (List ℕ))
        → IsSectionOf (meant names skeleton.now) places.now first function section) }
{
    let mut spots = spots_of(alloc, first, skeleton, places)?;
    spots.sort_by_key(|spot| spot.at)?;
    Ok(Section { function, spots })
}

/// The check-ins of a body in the order of its points.
fn spots_of(
    alloc: Global,
    first: usize,
    skeleton: &Skeleton,
    places: &[usize],
) -> Result<Vec<Spot>, AllocError>
    requires places { length places.now ≡ length skeleton.now.points.items }
    requires fits { first + length skeleton.now.points.items < 2 ^ 64 }
    ensures shown { IfOk result (λ spots. (names : List (List ℕ))
        → map shown spots.items ≡ check_ins_in (meant names skeleton.now) places.now) }
    ensures spots { IfOk result (λ spots. All (IsSpotOf first) spots.items) }
    ensures counted { IfOk result (λ spots. (names : List (List ℕ))
        → All (IsCounted (meant names skeleton.now)) spots.items) }
{
    let mut spots = Vec::new(alloc);
    for number in 0..skeleton.points.len() {
        add_spot(
            &mut spots,
            first,
            number,
            skeleton.points[number],
            places[number],
        )?;
    }
    Ok(spots)
}

/// Adds the check-in that a point is, if it is one.
fn add_spot(
    spots: &mut Vec<Spot>,
    first: usize,
    number: usize,
    point: Point,
    at: usize,
) -> Result<(), AllocError>
    requires fits { first + number < 2 ^ 64 }
    requires few { length spots.old.items ≤ number }
    ensures few { OnOk result (length spots.new.items ≤ length spots.old.items + 1) }
    ensures shown { OnOk result ((names : List (List ℕ)) → map shown spots.new.items
        ≡ map shown spots.old.items ++ check_in_if (check_in_of_kind (kind_of names point.kind)) number at) }
    ensures spots { All (IsSpotOf first) spots.old.items → OnOk result (All (IsSpotOf first) spots.new.items) }
    ensures counted { (count : ℕ → ℕ) → length spots.old.items ≡ count number
        → All (λ spot. spot.before ≡ count spot.number) spots.old.items
        → OnOk result (All (λ spot. spot.before ≡ count spot.number) spots.new.items) }
{
    let PointKind::CheckIn(kind) = point.kind else {
        return Ok(());
    };
    spots.push(Spot {
        number,
        before: spots.len(),
        point: first + number,
        at,
        kind,
    })?;
    Ok(())
}
