//! Ordered sets of points.
ghost use Rattle.std.specs.Prelude.{◌≡◌, IfOk, OnOk};
ghost use Rattle.c_semantics.specs.Skeletons.{with_point, union};

use std::alloc::AllocError;

/// The union of two ordered sets. The points of the first are mostly before those of the second, so each of them finds its
/// place near the beginning.
pub(crate) fn union(first: &[u32], second: Vec<u32>) -> Result<Vec<u32>, AllocError>
    ensures { IfOk result (λ set. set.items ≡ union first.now second.items) }
{
    let mut set = second;
    let mut left = first.len();
    while left > 0 {
        left -= 1;
        put(&mut set, first[left])?;
    }
    Ok(set)
}

/// Puts one point into an ordered set.
fn put(set: &mut Vec<u32>, n: u32) -> Result<(), AllocError>
    ensures { OnOk result (set.new.items ≡ with_point n set.old.items) }
{
    let mut i = 0;
    while i < set.len() && set[i] < n {
        i += 1;
    }
    if i == set.len() || set[i] != n {
        set.insert(i, n)?;
    }
    Ok(())
}

/// A copy of a set.
pub(crate) fn copy(set: &Vec<u32>) -> Result<Vec<u32>, AllocError>
    ensures { IfOk result (λ c. c.items ≡ set.now.items) }
{
    Vec::from_slice(*set.allocator(), set.as_slice())
}
