//! What is drawn of a skeleton so far, from its end on.
ghost use Rattle.std.specs.Prelude.{◌≡◌, ◌<◌, ◌∷◌, [], IfOk, slice_set, vec_len};
ghost use Rattle.c_semantics.specs.Skeletons.{point};
ghost use Rattle.resolved_tree.specs.Nodes.{Table};
ghost use Rattle.skeleton_gen.specs.Adding.{AddsPart};
ghost use Rattle.skeleton_gen.specs.Drawn.{drawn, kind_of};

use crate::spot::{Spot, SpotKind};
use dsu_io::List;
use std::alloc::{AllocError, Global};

/// The points from the one with the number `at` on, and for each of them where control may go from it. Both lists have
/// the last point of the skeleton first, so that a point is added before the others by a push.
#[derive(Drop)]
pub(crate) struct Draft {
    pub at: u32,
    pub spots: Vec<Spot>,
    pub next: Vec<List<u32>>,
}

impl Draft {
    /// Adds a point before the others, from which control may go to some, and gives the set of its number alone. The
    /// number is there, since `at` begins as the number of all points.
    pub fn point(
        &mut self,
        kind: SpotKind,
        depth: u32,
        to: Vec<u32>,
    ) -> Result<Vec<u32>, AllocError>
        ensures { IfOk result (λ set. (t : Table) → AddsPart depth (kind_of t kind ∷ []) point to.items
            (drawn t self.old) (drawn t self.new) set.items) }
    {
        let at = self.at.checked_sub(1).ok_or(AllocError)?;
        self.at = at;
        self.spots.push(Spot { kind, depth })?;
        self.next.push(List::of(to))?;
        let set = only(*self.spots.allocator(), at)?;
        Ok(set)
    }

    /// Says anew where control may go from a point, which is named by its place in `next`.
    pub fn lead(&mut self, point: usize, to: Vec<u32>)
        requires { point < vec_len self.old.next }
        ensures at { self.new.at ≡ self.old.at }
        ensures spots { self.new.spots.items ≡ self.old.spots.items }
        ensures next { self.new.next.items ≡ slice_set self.old.next.items point to.items }
    {
        self.next[point] = List::of(to);
    }
}

/// The set of one point.
fn only(alloc: Global, n: u32) -> Result<Vec<u32>, AllocError>
    ensures { IfOk result (λ set. set.items ≡ n ∷ []) }
{
    let mut set = Vec::new(alloc);
    set.push(n)?;
    Ok(set)
}
