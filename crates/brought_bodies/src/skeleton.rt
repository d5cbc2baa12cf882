//! The skeleton of a function of a text.
ghost use Rattle.std.specs.Prelude.{◌≡◌, Some, length, IfOk, IsErrOf};
ghost use Rattle.c_tree.specs.Bare.{bare_function};
ghost use Rattle.c_semantics.specs.Skeletons.{skeleton_of as skeleton_by};
ghost use Rattle.name_resolution.specs.Known.{known_of};
ghost use Rattle.skeletons.specs.Meaning.{meant};
ghost use Rattle.skeleton_gen.specs.Naming.{AllKnown, HasUnknown};

use c_definitions::Known;
use c_tree::Function;
use name_resolution::resolve_body;
use name_sets::Names;
use resolved_tree::Trees;
use skeleton_gen::{SkeletonFault, skeleton_of};
use skeletons::Skeleton;
use std::alloc::Global;

/// The skeleton of a function under the definitions of its text.
pub fn skeleton_in(
    alloc: Global,
    known: &Known,
    names: &Names,
    function: &Function,
) -> Result<Skeleton, SkeletonFault>
    ensures skeleton { IfOk result (λ s. meant names.now s
        ≡ skeleton_by (known_of known.now) (Some (bare_function function.now))) }
    ensures known { IfOk result (λ s. AllKnown (length names.now) s.points.items) }
    ensures unknown { IsErrOf result SkeletonFault.Unknown → HasUnknown names.now
        (skeleton_by (known_of known.now) (Some (bare_function function.now))).points }
{
    let mut trees = Trees::new(alloc);
    let body = resolve_body(&mut trees, known, function)?;
    skeleton_of(alloc, &trees, body, names)
}
