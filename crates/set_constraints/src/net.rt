//! Constraints that are made ready to be solved.
ghost use Rattle.std.specs.Prelude.{◌≡◌, ℕ, ◌<◌, ◌↔◌, length, slice_index, IfOk};
ghost use Rattle.name_sets.specs.IdSet.{Holds};
ghost use Rattle.set_constraints.specs.Constraints.{Fit, Reaches};

use crate::constraint::{Edge, Order};
use crate::links::Links;
use crate::solution::solve;
use crate::walk::order_of;
use name_sets::NameSet;
use std::alloc::{AllocError, Global};
use std::marker::Model;

/// Nodes, and edges among them, which can be solved for several seeds. Contracts see how many nodes there are, and the edges.
#[derive(Drop)]
pub struct Net {
    links: Links,
    /// The nodes in the order in which they are looked at.
    order: Vec<usize>,
}

impl Model for Net {
    ghost use Rattle.std.specs.Prelude.{length};
    ghost use Rattle.set_constraints.specs.Constraints.{Fit};
    ghost use Rattle.set_constraints.specs.Nets.{Contents};
    ghost use Rattle.set_constraints.specs.Waiting.{IsOrder};

    ghost Value = { Contents };

    ghost view = { λ net. record {
      nodes = length net.links.last.items;
      edges = net.links.edges.items;
    } };

    ghost invariant = { λ net. Fit (length net.links.last.items) net.links.edges.items
        × IsOrder (length net.links.last.items) net.order.items };
}

impl Net {
    /// A net of so many nodes. It takes 16 bytes a node and 8 an edge beside `edges`, and 26 a node more while it is made.
    pub fn new(
        alloc: Global,
        nodes: usize,
        edges: Vec<Edge>,
        order: Order,
    ) -> Result<Net, AllocError>
        requires { Fit nodes edges.items }
        ensures nodes { IfOk result (λ net. net.nodes ≡ nodes) }
        ensures edges { IfOk result (λ net. net.edges ≡ edges.items) }
    {
        let links = Links::new(alloc, nodes, edges)?;
        let order = order_of(alloc, &links, order)?;
        Ok(Net { links, order })
    }

    /// The least sets that contain `seeds`, one for each node, and meet each edge.
    ///
    /// The nodes are looked at in sweeps, in an order in which most edges lead from a node to a later one. A sweep looks at
    /// each node whose set has grown since it was looked at last; the set then joins that of each node to which it has an
    /// edge, which takes 32 steps an edge. Where no edges make a loop, there is one sweep, and else mostly about as many more
    /// as loops lie within one another. All memory is taken at first: a byte a node, beside `seeds`.
    pub fn least_sets(&self, alloc: Global, seeds: Vec<NameSet>) -> Result<Vec<NameSet>, AllocError>
        requires nodes { length seeds.items ≡ self.now.nodes }
        ensures many { IfOk result (λ sets. length sets.items ≡ length seeds.items) }
        ensures least { IfOk result (λ sets. (n id : ℕ) → Holds (slice_index sets.items n) id
            ↔ Reaches seeds.items self.now.edges n id) }
    {
        solve(alloc, &self.links, &self.order, seeds)
    }
}

/// The least sets of a net that is solved once.
pub fn least_sets(
    alloc: Global,
    seeds: Vec<NameSet>,
    edges: Vec<Edge>,
    order: Order,
) -> Result<Vec<NameSet>, AllocError>
    requires fit { Fit (length seeds.items) edges.items }
    ensures many { IfOk result (λ sets. length sets.items ≡ length seeds.items) }
    ensures least { IfOk result (λ sets. (n id : ℕ) → Holds (slice_index sets.items n) id
        ↔ Reaches seeds.items edges.items n id) }
{
    let net = Net::new(alloc, seeds.len(), edges, order)?;
    net.least_sets(alloc, seeds)
}
