//! The least sets of a few small nets, with the members that they must have.
ghost use Rattle.std.specs.Prelude.{IfOk};
ghost use Rattle.set_constraints.specs.Constraints.{Fit};

use crate::names::{EMPTY, Ids, set_of};
use name_sets::NameSet;
use set_constraints::{Edge, Order, least_sets};
use std::alloc::{AllocError, Global};

/// The sets of these ids.
fn sets_of(alloc: Global, rows: &[Ids]) -> Result<Vec<NameSet>, AllocError> {
    let mut sets = Vec::new(alloc);
    for ids in rows {
        sets.push(set_of(ids))?;
    }
    Ok(sets)
}

/// The edges with these ends, without those that don't lie below `nodes`.
fn edges_of(alloc: Global, nodes: usize, ends: &[(usize, usize)]) -> Result<Vec<Edge>, AllocError>
    ensures { IfOk result (λ edges. Fit nodes edges.items) }
{
    let mut edges = Vec::new(alloc);
    for &(from, to) in ends {
        if from < nodes && to < nodes {
            edges.push(Edge { from, to })?;
        }
    }
    Ok(edges)
}

/// The least sets over the seeds of all nodes, in an order.
fn solved(
    alloc: Global,
    order: Order,
    seeds: &[Ids],
    ends: &[(usize, usize)],
) -> Result<Vec<NameSet>, AllocError> {
    let seeds = sets_of(alloc, seeds)?;
    let edges = edges_of(alloc, seeds.len(), ends)?;
    least_sets(alloc, seeds, edges, order)
}

/// Whether these are the least sets, in both orders.
fn are_least(
    alloc: Global,
    seeds: &[Ids],
    ends: &[(usize, usize)],
    expected: &[Ids],
) -> Result<bool, AllocError> {
    let expected = sets_of(alloc, expected)?;
    let rising = solved(alloc, Order::Rising, seeds, ends)?;
    let falling = solved(alloc, Order::Falling, seeds, ends)?;
    Ok(rising == expected && falling == expected)
}

#[test]
fn names_go_along_a_chain(rt: HostRuntime) {
    let is_solved = are_least(
        rt.alloc(),
        &[[7, 7, 7], EMPTY, [2047, 2047, 2047], [0, 0, 0]],
        &[(2, 3), (1, 2), (0, 1)],
        &[[7, 7, 7], [7, 7, 7], [7, 2047, 2047], [0, 7, 2047]],
    );
    assert!(rt; is_solved.expect(&rt, "memory"));
}

#[test]
fn names_go_round_a_loop(rt: HostRuntime) {
    let is_solved = are_least(
        rt.alloc(),
        &[[1, 1, 1], [64, 64, 64], [5, 5, 5]],
        &[(0, 1), (1, 0), (2, 2)],
        &[[1, 64, 64], [1, 64, 64], [5, 5, 5]],
    );
    assert!(rt; is_solved.expect(&rt, "memory"));
}

#[test]
fn names_meet_below_a_fork(rt: HostRuntime) {
    let is_solved = are_least(
        rt.alloc(),
        &[[3, 3, 3], [100, 100, 100], [200, 200, 200], EMPTY],
        &[(0, 1), (0, 2), (1, 3), (2, 3)],
        &[[3, 3, 3], [3, 100, 100], [3, 200, 200], [3, 100, 200]],
    );
    assert!(rt; is_solved.expect(&rt, "memory"));
}

#[test]
fn no_nodes_have_no_sets(rt: HostRuntime) {
    assert!(rt; are_least(rt.alloc(), &[], &[], &[]).expect(&rt, "memory"));
}
