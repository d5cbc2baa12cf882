//! The skeleton of a body.
ghost use Rattle.std.specs.Prelude.{◌≡◌, length, IfOk, IsErrOf};
ghost use Rattle.c_semantics.specs.Skeletons.{skeleton};
ghost use Rattle.resolved_tree.specs.Nodes.{statements_at};
ghost use Rattle.resolved_tree.specs.Trees.{table};
ghost use Rattle.skeletons.specs.Meaning.{meant};
ghost use Rattle.skeleton_gen.specs.Drawn.{Shows};
ghost use Rattle.skeleton_gen.specs.Naming.{HasUnknown, AllKnown};

use crate::draft::Draft;
use crate::naming::{SkeletonFault, named};
use crate::spot::SpotKind;
use crate::statement::{Jumps, statements};
use name_sets::Names;
use resolved_tree::{NodeId, Trees, sum};
use skeletons::{CheckInKind, Skeleton};
use std::alloc::{AllocError, Global};

/// The skeleton of a function's body. The names that its points use are in the table: those of functions, globals, arrays
/// and mutexes, and of each struct T the text `struct T`.
pub fn skeleton_of(
    alloc: Global,
    trees: &Trees,
    body: NodeId,
    names: &Names,
) -> Result<Skeleton, SkeletonFault>
    ensures skeleton { IfOk result
        (λ s. meant names.now s ≡ skeleton (statements_at (table trees.now) body)) }
    ensures known { IfOk result (λ s. AllKnown (length names.now) s.points.items) }
    ensures unknown { IsErrOf result SkeletonFault.Unknown
        → HasUnknown names.now (skeleton (statements_at (table trees.now) body)).points }
{
    let draft = drawn_body(alloc, trees, body)?;
    let Draft { at: _, spots, next } = draft;
    let points = named(alloc, trees, names, spots.as_slice())?;
    let mut next = next;
    next.as_mut_slice().reverse();
    Ok(Skeleton { points, next })
}

/// The draft of a body, with its entry and the closing return.
fn drawn_body(alloc: Global, trees: &Trees, body: NodeId) -> Result<Draft, AllocError>
    ensures { let t = table trees.now in IfOk result (λ draft. Shows t draft (skeleton (statements_at t body))) }
{
    let at = sum(trees.statements_points(body), 2)?;
    let mut draft = Draft {
        at,
        spots: Vec::with_capacity(alloc, at as usize)?,
        next: Vec::with_capacity(alloc, at as usize)?,
    };
    let last = draft.point(SpotKind::Return, 0, Vec::new(alloc))?;
    let jumps = Jumps {
        broken: Vec::new(alloc),
        continued: Vec::new(alloc),
    };
    let first = statements(trees, &mut draft, 0, body, last, &jumps)?;
    let _entry = draft.point(SpotKind::CheckIn(CheckInKind::Entry), 0, first)?;
    Ok(draft)
}
