//! The number of a check-in in its body.
ghost use Rattle.std.specs.Prelude.{◌≡◌, ℕ, List, map, take, count_by};
ghost use Rattle.run_types.specs.Skeleton.{reached};
ghost use Rattle.c_tree.specs.BareExpr.{Bytes};
ghost use Rattle.c_semantics.specs.Skeletons.{is_check_in_kind};
ghost use Rattle.c_semantics.specs.Store.{check_in_number};
ghost use Rattle.skeletons.specs.Meaning.{meant, point_of};
ghost use Rattle.code_store.specs.Stored.{meant_body};

use code_store::StoredBody;
use skeletons::Point;

/// How many check-ins come before a place among some points.
fn check_ins_before(points: &[Point], place: u32) -> u32
    ensures { (names : List Bytes) → result
        ≡ count_by (λ p. is_check_in_kind p.kind) (take place (map (point_of names) points.now)) }
{
    let mut count = 0;
    for point in &points[..points.len().min(place as usize)] {
        if point.kind.is_check_in() {
            count += 1;
        }
    }
    count
}

/// The number of the check-in to which a thread came that last stopped at a point: that of one that directly follows the
/// stop, as no other is between.
pub(crate) fn number_after(body: &StoredBody, point: u32) -> u32
    ensures { (names : List Bytes) → result
        ≡ check_in_number (meant_body names body.now) (reached (meant names body.now.skeleton) point) }
{
    check_ins_before(&body.skeleton.points, point)
}
