//! Whether a skeleton uses a name of a set.
ghost use Rattle.std.specs.Prelude.{◌≡◌, ℕ, List, length};
ghost use Rattle.std.specs.Bool.{OnTrue};
ghost use Rattle.std.specs.List.{list_any};
ghost use Rattle.name_sets.specs.IdSet.{Holds};
ghost use Rattle.name_sets.specs.NameLists.{is_among};
ghost use Rattle.c_semantics.specs.Skeletons.{direct_uses};
ghost use Rattle.skeletons.specs.Meaning.{meant};
ghost use Rattle.skeleton_gen.specs.Naming.{IsKnown, AllKnown};
ghost use Rattle.brought_bodies.specs.Sets.{IsSetOf, uses_one};

use name_sets::NameSet;
use skeletons::{PointKind, Skeleton};

/// Whether a set has no names.
pub(crate) fn is_empty(set: &NameSet) -> bool
    ensures { OnTrue result ((id : ℕ) → ¬ Holds set.now id) }
{
    *set == NameSet::empty()
}

/// Whether a set has the name that is used at a point.
fn uses(kind: PointKind, set: &NameSet) -> bool
    ensures { (names list : List (List ℕ)) → IsSetOf names set.now list → IsKnown (length names) kind
        → result ≡ uses_one names list kind }
{
    match kind.used() {
        Some(name) => set.holds(name),
        None => false,
    }
}

/// Whether a set has a name that is used at some point of a skeleton.
pub(crate) fn uses_any(skeleton: &Skeleton, set: &NameSet) -> bool
    ensures { (names list : List (List ℕ)) → IsSetOf names set.now list
        → AllKnown (length names) skeleton.now.points.items
        → result ≡ list_any (is_among list) (direct_uses (meant names skeleton.now)) }
{
    for point in &skeleton.points {
        if uses(point.kind, set) {
            return true;
        }
    }
    false
}
