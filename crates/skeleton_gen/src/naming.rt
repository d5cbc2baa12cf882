//! Ids for the names at points.
ghost use Rattle.std.specs.Prelude.{◌≡◌, map, reverse, length, IfOk, IfErr};
ghost use Rattle.c_semantics.specs.Names.{struct_name};
ghost use Rattle.resolved_tree.specs.Trees.{table};
ghost use Rattle.skeletons.specs.Meaning.{point_of, use_of};
ghost use Rattle.skeleton_gen.specs.Drawn.{kind_of, spot_of};
ghost use Rattle.skeleton_gen.specs.Naming.{NamesKind, HasUnknown, AllKnown, IfUnknown};

use crate::spot::{Spot, SpotKind};
use name_resolution::name_of_struct;
use name_sets::Names;
use resolved_tree::Trees;
use skeletons::{Point, PointKind, Use};
use std::alloc::{AllocError, Global};

/// Why a body has no skeleton.
#[derive(Clone, Copy, Debug, PartialEq, Eq)]
pub enum SkeletonFault {
    /// A point uses a name that the table doesn't have.
    Unknown,
    /// There was no memory for it, or there are 2^32 points or more.
    Memory,
}

impl From<AllocError> for SkeletonFault {
    ghost use Rattle.std.specs.Prelude.{◌≡◌};
    ghost use Rattle.skeleton_gen.specs.declared.naming.SkeletonFault.TheVariants.{Memory};

    ghost from_gives = { λ _ fault. fault ≡ Memory };

    fn from(_: AllocError) -> SkeletonFault {
        SkeletonFault::Memory
    }
}

/// The points of spots that have the last one first, with ids for their names.
pub(crate) fn named(
    alloc: Global,
    trees: &Trees,
    names: &Names,
    spots: &[Spot],
) -> Result<Vec<Point>, SkeletonFault>
    ensures points { IfOk result (λ points. map (point_of names.now) points.items
        ≡ reverse (map (spot_of (table trees.now)) spots.now)) }
    ensures known { IfOk result (λ points. AllKnown (length names.now) points.items) }
    ensures unknown { IfErr result (λ fault. IfUnknown fault
        (HasUnknown names.now (reverse (map (spot_of (table trees.now)) spots.now)))) }
{
    let mut points = Vec::with_capacity(alloc, spots.len())?;
    let mut left = spots.len();
    while left > 0 {
        left -= 1;
        let Spot { kind, depth } = spots[left];
        let kind = named_kind(alloc, trees, names, kind)?;
        let Ok(_) = points.push(Point { kind, depth }) else {
            return Err(SkeletonFault::Memory);
        };
    }
    Ok(points)
}

/// A kind of point with the id of its name, if it uses one.
fn named_kind(
    alloc: Global,
    trees: &Trees,
    names: &Names,
    kind: SpotKind,
) -> Result<PointKind, SkeletonFault>
    ensures { NamesKind names.now (kind_of (table trees.now) kind) result }
{
    match kind {
        SpotKind::Uses(action, name) => used(names, action, trees.text(name)),
        SpotKind::UsesStruct(action, tag) => used_struct(alloc, names, action, trees.text(tag)),
        SpotKind::CheckIn(kind) => Ok(PointKind::CheckIn(kind)),
        SpotKind::Print => Ok(PointKind::Print),
        SpotKind::Join => Ok(PointKind::Join),
        SpotKind::Return => Ok(PointKind::Return),
        SpotKind::Back => Ok(PointKind::Back),
        SpotKind::Begin => Ok(PointKind::Begin),
        SpotKind::End => Ok(PointKind::End),
        SpotKind::Update => Ok(PointKind::Update),
    }
}

/// A stop that uses the name of the struct with a tag.
fn used_struct(
    alloc: Global,
    names: &Names,
    action: Use,
    tag: &str,
) -> Result<PointKind, SkeletonFault>
    ensures { NamesKind names.now (use_of action (struct_name tag.now)) result }
{
    let name = name_of_struct(alloc, tag)?;
    used(names, action, name.as_str())
}

/// A stop that uses a name.
fn used(names: &Names, action: Use, name: &str) -> Result<PointKind, SkeletonFault>
    ensures { NamesKind names.now (use_of action name.now) result }
{
    match names.find(name) {
        Some(id) => Ok(PointKind::Uses(action, id)),
        None => Err(SkeletonFault::Unknown),
    }
}
