//! The points and ways of one body.
ghost use Rattle.std.specs.Prelude.{◌≡◌, ◌+◌, ◌^◌, ◌<◌, ◌++◌, IfOk, OnOk};
ghost use Rattle.effect_flow.specs.Parts.{points_from, ways_to, ways_from};

use crate::{FlowPoint, Way};
use dsu_io::List;
use name_sets::NameId;
use skeletons::Point;
use std::alloc::{AllocError, Global};

/// The points of a body of a function.
pub(crate) fn points_of(
    alloc: Global,
    function: NameId,
    generation: u32,
    points: &[Point],
) -> Result<Vec<FlowPoint>, AllocError>
    ensures { IfOk result (λ made. made.items ≡ points_from function generation 0 points.now) }
{
    let mut made = Vec::with_capacity(alloc, points.len())?;
    for (number, point) in points.iter().enumerate() {
        made.push(FlowPoint {
            function,
            generation,
            number,
            point: *point,
        })?;
    }
    Ok(made)
}

/// Adds the ways from the place `from` in a body of `size` points, which come after `before` others.
fn add_ways_to(
    ways: &mut Vec<Way>,
    before: usize,
    size: usize,
    from: usize,
    targets: &[u32],
) -> Result<(), AllocError>
    requires { before + size < 2 ^ 64 }
    ensures { OnOk result (ways.new.items ≡ ways.old.items ++ ways_to before size from targets.now) }
{
    for target in targets {
        let target = *target as usize;
        if target < size {
            ways.push(Way {
                from,
                to: before + target,
            })?;
        }
    }
    Ok(())
}

/// The ways of a body of `size` points, which come after `before` others.
pub(crate) fn ways_of(
    alloc: Global,
    before: usize,
    size: usize,
    next: &[List<u32>],
) -> Result<Vec<Way>, AllocError>
    requires { before + size < 2 ^ 64 }
    ensures { IfOk result (λ ways. ways.items ≡ ways_from before size 0 next.now) }
{
    let mut ways = Vec::new(alloc);
    for (number, targets) in next.iter().enumerate() {
        if number >= size {
            return Ok(ways);
        }
        add_ways_to(&mut ways, before, size, before + number, targets.as_slice())?;
    }
    Ok(ways)
}
