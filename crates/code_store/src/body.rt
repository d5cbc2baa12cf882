//! A body, its check-ins and its uses.
ghost use Rattle.std.specs.Prelude.{◌≡◌, ℕ, ◌≤◌, ◌↔◌, ◌⊎◌, false, List, map, length, count_by, Contains};
ghost use Rattle.name_sets.specs.IdSet.{Holds};
ghost use Rattle.skeletons.specs.Meaning.{point_of};
ghost use Rattle.c_semantics.specs.Skeletons.{is_check_in_kind};
ghost use Rattle.code_store.specs.Limits.{are_too_many};
ghost use Rattle.code_store.specs.Stored.{meant_body, HasCounts};
ghost use Rattle.code_store.specs.Uses.{used_ids};

use name_sets::{NameId, NameSet};
use skeletons::{Point, Skeleton};

/// A body: its function, the version that brought it, its number of tokens and its skeleton.
#[derive(Debug, Drop)]
pub struct StoredBody {
    pub function: NameId,
    pub generation: u32,
    pub tokens: u32,
    pub skeleton: Skeleton,
}

/// The number of check-ins among some points.
pub(crate) fn check_ins_among(points: &[Point]) -> usize
    ensures number { (names : List (List ℕ))
        → result ≡ count_by (λ p. is_check_in_kind p.kind) (map (point_of names) points.now) }
    ensures bound { result ≤ length points.now }
{
    let mut count = 0;
    for point in points {
        if point.kind.is_check_in() {
            count += 1;
        }
    }
    count
}

/// How many check-ins and tokens some bodies have.
#[derive(Clone, Copy)]
pub(crate) struct Counts {
    pub check_ins: usize,
    pub tokens: usize,
}

/// Counts the check-ins and tokens of bodies that fit a store.
pub(crate) fn counts_of(bodies: &[StoredBody]) -> Counts
    requires { (names : List (List ℕ)) → are_too_many (map (meant_body names) bodies.now) ≡ false }
    ensures { HasCounts bodies.now result.check_ins result.tokens }
{
    let mut check_ins = 0;
    let mut tokens = 0;
    for body in bodies {
        check_ins += check_ins_among(&body.skeleton.points);
        tokens += body.tokens as usize;
    }
    Counts { check_ins, tokens }
}

/// Puts in the names that some points use.
pub(crate) fn add_uses(set: &mut NameSet, points: &[Point])
    ensures { (id : ℕ) → Holds set.new id ↔ (Holds set.old id ⊎ Contains (used_ids points.now) id) }
{
    for point in points {
        if let Some(name) = point.kind.used() {
            set.add(name);
        }
    }
}
