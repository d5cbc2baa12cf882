//! The sets of names of the nodes.
ghost use Rattle.std.specs.Prelude.{◌≡◌, ℕ, ◌+◌, ◌<◌, ◌≤◌, length, replicate, slice_index, IfOk};
ghost use Rattle.contextual_effects.specs.Steps.{Numbers};
ghost use Rattle.effect_flow.specs.Parts.{Contents};
ghost use Rattle.checkin_rows.specs.Edges.{node_count};
ghost use Rattle.checkin_rows.specs.Steps.{AreSame, AreFirst, AreSeeds, AreSetsOf, IsNetOf};

use crate::constraints::edges;
use crate::nodes::Nodes;
use contextual_effects::Effects;
use effect_flow::Flow;
use name_sets::NameSet;
use set_constraints::{Net, Order};
use std::alloc::{AllocError, Global};
use std::marker::Model;

/// The prior, future and concrete sets of the nodes. Contracts see the three lists.
#[derive(Drop)]
pub(crate) struct Solution {
    prior: Vec<NameSet>,
    future: Vec<NameSet>,
    concrete: Vec<NameSet>,
}

impl Model for Solution {
    ghost use Rattle.checkin_rows.specs.Steps.{SetsOfNodes};

    ghost Value = { SetsOfNodes };

    ghost view = { λ s. record {
      prior = s.prior.items;
      future = s.future.items;
      concrete = s.concrete.items;
    } };
}

impl Solution {
    /// The prior set of a node.
    pub(crate) fn prior(&self, node: usize) -> NameSet
        ensures { AreSame result (slice_index self.now.prior node) }
    {
        set_at(&self.prior, node)
    }

    /// The future set of a node.
    pub(crate) fn future(&self, node: usize) -> NameSet
        ensures { AreSame result (slice_index self.now.future node) }
    {
        set_at(&self.future, node)
    }

    /// The concrete set of a node.
    pub(crate) fn concrete(&self, node: usize) -> NameSet
        ensures { AreSame result (slice_index self.now.concrete node) }
    {
        set_at(&self.concrete, node)
    }
}

/// The set at a place, or the empty set past the end.
fn set_at(sets: &[NameSet], place: usize) -> NameSet
    ensures { AreSame result (slice_index sets.now place) }
{
    if place < sets.len() {
        sets[place]
    } else {
        NameSet::empty()
    }
}

/// The first sets, so many of them.
fn first_sets(alloc: Global, sets: &[NameSet], count: usize) -> Result<Vec<NameSet>, AllocError>
    ensures { IfOk result (λ first. AreFirst count sets.now first.items) }
{
    let mut first = Vec::with_capacity(alloc, count)?;
    for place in 0..count {
        first.push(set_at(sets, place))?;
    }
    Ok(first)
}

/// The names that each node has by itself: points have their own sets, and functions have nothing.
fn seeds(alloc: Global, nodes: &Nodes, own: &[NameSet]) -> Result<Vec<NameSet>, AllocError>
    ensures { IfOk result (λ seeds. AreSeeds nodes.now.points nodes.now.names own.now seeds.items) }
{
    let first = first_sets(alloc, own, nodes.points)?;
    let functions = vec![in alloc; NameSet::empty(); nodes.names + nodes.names + nodes.names]?;
    let mut seeds = Vec::with_capacity(alloc, first.len() + first.len() + functions.len())?;
    seeds.extend_from_slice(&first)?;
    seeds.extend_from_slice(&first)?;
    seeds.extend_from_slice(&functions)?;
    Ok(seeds)
}

/// The nodes and edges of a flow.
fn net_of(alloc: Global, nodes: &Nodes, flow: &Flow) -> Result<Net, AllocError>
    requires { Numbers nodes.now.points nodes.now.names flow.now }
    ensures { IfOk result (λ net. IsNetOf nodes.now.points nodes.now.names flow.now net) }
{
    let count = nodes.points + nodes.points + (nodes.names + nodes.names + nodes.names);
    let edges = edges(alloc, nodes, flow)?;
    let net = Net::new(alloc, count, edges, Order::Falling)?;
    Ok(net)
}

/// The sets of the nodes where points have their own sets.
fn sets_of(
    alloc: Global,
    nodes: &Nodes,
    own: &[NameSet],
    net: &Net,
) -> Result<Vec<NameSet>, AllocError>
    requires { net.now.nodes ≡ node_count nodes.now.points nodes.now.names }
    ensures { IfOk result (λ sets. (flow : Contents) → IsNetOf nodes.now.points nodes.now.names flow net.now
        → AreSetsOf nodes.now.points nodes.now.names flow own.now sets.items) }
{
    let seeds = seeds(alloc, nodes, own)?;
    let sets = net.least_sets(alloc, seeds)?;
    Ok(sets)
}

/// The sets of the nodes, for each kind of effect.
pub(crate) fn solution_of(
    alloc: Global,
    nodes: &Nodes,
    effects: &Effects,
    flow: &Flow,
) -> Result<Solution, AllocError>
    requires { Numbers nodes.now.points nodes.now.names flow.now }
    ensures prior { IfOk result (λ s. AreSetsOf nodes.now.points nodes.now.names flow.now effects.now.prior s.prior) }
    ensures future { IfOk result (λ s. AreSetsOf nodes.now.points nodes.now.names flow.now effects.now.future s.future) }
    ensures concrete { IfOk result (λ s. AreSetsOf nodes.now.points nodes.now.names flow.now effects.now.concrete s.concrete) }
{
    let net = net_of(alloc, nodes, flow)?;
    let prior = sets_of(alloc, nodes, effects.prior(), &net)?;
    let future = sets_of(alloc, nodes, effects.future(), &net)?;
    let concrete = sets_of(alloc, nodes, effects.concrete(), &net)?;
    Ok(Solution {
        prior,
        future,
        concrete,
    })
}
