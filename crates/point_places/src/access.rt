//! The places of the points that an expression makes itself.
ghost use Rattle.std.specs.Prelude.{◌≡◌, ◌++◌, ◌∷◌, [], OnOk};
ghost use Rattle.c_semantics.specs.Points.{reads, writes};
ghost use Rattle.c_semantics.specs.Places.{without_casts, place_of, each_at};
ghost use Rattle.resolved_tree.specs.Nodes.{Table, place_of as place_in};

use crate::append::{one, two};
use crate::parts::place_of;
use c_tree::Expr;
use resolved_tree::Place;
use std::alloc::AllocError;

/// One point.
pub(crate) fn once(e: &Expr, places: &mut Vec<usize>) -> Result<(), AllocError>
    ensures { OnOk result (places.new.items ≡ places.old.items ++ place_of (without_casts e.now) ∷ []) }
{
    one(place_of(e), places)
}

/// A point and its check-in.
pub(crate) fn twice(e: &Expr, places: &mut Vec<usize>) -> Result<(), AllocError>
    ensures { OnOk result (places.new.items ≡ places.old.items
        ++ place_of (without_casts e.now) ∷ place_of (without_casts e.now) ∷ []) }
{
    two(place_of(e), places)
}

/// The point of the read of a place, or of its write, where it isn't local.
pub(crate) fn access(place: Place, e: &Expr, places: &mut Vec<usize>) -> Result<(), AllocError>
    ensures read { (t : Table) → OnOk result (places.new.items
        ≡ places.old.items ++ each_at (without_casts e.now) (reads (place_in t place))) }
    ensures write { (t : Table) → OnOk result (places.new.items
        ≡ places.old.items ++ each_at (without_casts e.now) (writes (place_in t place))) }
{
    match place {
        Place::Local(_) => Ok(()),
        Place::Global(_) | Place::Element(_, _) | Place::Field(_, _, _) => once(e, places),
    }
}

/// The points of a read and a write of one place.
pub(crate) fn read_and_write(
    place: Place,
    e: &Expr,
    places: &mut Vec<usize>,
) -> Result<(), AllocError>
    ensures { (t : Table) → OnOk result (places.new.items ≡ places.old.items
        ++ (each_at (without_casts e.now) (reads (place_in t place)) ++ each_at (without_casts e.now) (writes (place_in t place)))) }
{
    access(place, e, places)?;
    access(place, e, places)
}

/// A point, and that of the write of a place.
pub(crate) fn once_and_write(
    place: Place,
    e: &Expr,
    places: &mut Vec<usize>,
) -> Result<(), AllocError>
    ensures { (t : Table) → OnOk result (places.new.items ≡ places.old.items
        ++ place_of (without_casts e.now) ∷ each_at (without_casts e.now) (writes (place_in t place))) }
{
    once(e, places)?;
    access(place, e, places)
}
