//! The least sets.
ghost use Rattle.std.specs.Prelude.{◌≡◌, ℕ, ◌+◌, ◌<◌, ◌≤◌, ◌↔◌, length, slice_index, IfOk};
ghost use Rattle.name_sets.specs.IdSet.{Holds};
ghost use Rattle.set_constraints.specs.Constraints.{Fit, Reaches};
ghost use Rattle.set_constraints.specs.Passing.{Adds, PassesOn, room_of};
ghost use Rattle.set_constraints.specs.Waiting.{IsOrder, waiting};

use crate::links::Links;
use crate::queue::Queue;
use name_sets::NameSet;
use std::alloc::{AllocError, Global};

/// The least sets that contain `seeds` and meet each edge, by sweeps over an order of the nodes.
pub(crate) fn solve(
    alloc: Global,
    links: &Links,
    order: &[usize],
    seeds: Vec<NameSet>,
) -> Result<Vec<NameSet>, AllocError>
    requires nodes { length links.now.last.items ≡ length seeds.items }
    requires order { IsOrder (length seeds.items) order.now }
    requires fit { Fit (length seeds.items) links.now.edges.items }
    ensures many { IfOk result (λ sets. length sets.items ≡ length seeds.items) }
    ensures least { IfOk result (λ sets. (n id : ℕ) → Holds (slice_index sets.items n) id
        ↔ Reaches seeds.items links.now.edges.items n id) }
{
    let mut queue = Queue::of_all(alloc, seeds.len())?;
    let mut sets = seeds;
    while let Some(node) = queue.take(order) {
        pass_on(links, node, &mut sets, &mut queue);
    }
    Ok(sets)
}

/// Passes the set of a node on along each edge that leaves it.
fn pass_on(links: &Links, node: usize, sets: &mut [NameSet], queue: &mut Queue)
    requires node { node < length sets.old }
    requires nodes { length links.now.last.items ≡ length sets.old }
    requires waits { length queue.old.waits.items ≡ length sets.old }
    requires fit { Fit (length sets.old) links.now.edges.items }
    ensures passes { PassesOn links.now.edges.items node
        sets.old queue.old.waits.items sets.new queue.new.waits.items }
    ensures falls { room_of sets.new + waiting queue.new.waits.items
        ≤ room_of sets.old + waiting queue.old.waits.items }
{
    let set = sets[node];
    let mut place = links.last_of(node);
    while place > 0 {
        let edge = place - 1;
        add_to(links.target(edge), &set, sets, queue);
        place = links.previous_of(edge);
    }
}

/// Adds a set to that of a node, which waits from then on if its set has grown.
fn add_to(node: usize, set: &NameSet, sets: &mut [NameSet], queue: &mut Queue)
    requires node { node < length sets.old }
    requires waits { length queue.old.waits.items ≡ length sets.old }
    ensures adds { Adds set.now node
        sets.old queue.old.waits.items sets.new queue.new.waits.items }
    ensures falls { room_of sets.new + waiting queue.new.waits.items
        ≤ room_of sets.old + waiting queue.old.waits.items }
{
    if sets[node].union_with(set) {
        queue.put(node);
    }
}
