//! The edges of each node.
ghost use Rattle.std.specs.Prelude.{◌≡◌, ℕ, ◌<◌, ◌+◌, length, slice_index, IfOk};
ghost use Rattle.set_constraints.specs.Constraints.{Fit};
ghost use Rattle.set_constraints.specs.Chains.{AreLinked, IsUpTo, SkipsNone, source, target};

use crate::constraint::Edge;
use std::alloc::{AllocError, Global};

/// Edges, with a chain through those that leave the same node, from the last one to the first. A place in the chain is
/// the number of edges up to and with that one, and 0 is its end.
#[derive(Drop)]
pub(crate) struct Links {
    edges: Vec<Edge>,
    /// For each node, the number of edges up to the last one that leaves it.
    last: Vec<usize>,
    /// For each edge, the number of edges up to the one before it that leaves the same node.
    previous: Vec<usize>,
    ghost linked: { AreLinked edges.items last.items previous.items (length edges.items) },
}

impl Links {
    pub(crate) fn new(alloc: Global, nodes: usize, edges: Vec<Edge>) -> Result<Links, AllocError>
        requires { Fit nodes edges.items }
        ensures edges { IfOk result (λ links. links.edges.items ≡ edges.items) }
        ensures nodes { IfOk result (λ links. length links.last.items ≡ nodes) }
    {
        let mut last = vec![in alloc; 0; nodes]?;
        let mut previous = Vec::with_capacity(alloc, edges.len())?;
        for index in 0..edges.len() {
            let from = edges[index].from;
            previous.push(last[from])?;
            last[from] = index + 1;
        }
        Ok(Links {
            edges,
            last,
            previous,
        })
    }

    /// How many nodes there are.
    pub(crate) fn nodes(&self) -> usize
        ensures { result ≡ length self.now.last.items }
    {
        self.last.len()
    }

    /// Where the chain of a node begins. A number that is no node has an empty chain.
    pub(crate) fn beginning(&self, node: usize) -> usize {
        match self.last.get(node) {
            Some(place) => *place,
            None => 0,
        }
    }

    /// The node to which the edge at a place leads, and where its chain goes on, unless the place is an end.
    pub(crate) fn after(&self, place: usize) -> Option<(usize, usize)> {
        if place == 0 {
            return None;
        }
        let edge = self.edges.get(place - 1)?;
        let next = self.previous.get(place - 1)?;
        Some((edge.to, *next))
    }

    /// The place of the last edge that leaves a node.
    pub(crate) fn last_of(&self, node: usize) -> usize
        requires { node < length self.now.last.items }
        ensures own { IsUpTo self.now.edges.items node (length self.now.edges.items) result }
        ensures skips { SkipsNone self.now.edges.items node (length self.now.edges.items) result }
    {
        self.last[node]
    }

    /// The node to which an edge leads.
    pub(crate) fn target(&self, index: usize) -> usize
        requires { index < length self.now.edges.items }
        ensures { result ≡ target self.now.edges.items index }
    {
        self.edges[index].to
    }

    /// The place of the edge before this one that leaves the same node.
    pub(crate) fn previous_of(&self, index: usize) -> usize
        requires { index < length self.now.edges.items }
        ensures own { IsUpTo self.now.edges.items (source self.now.edges.items index) index result }
        ensures skips { SkipsNone self.now.edges.items (source self.now.edges.items index) index result }
    {
        self.previous[index]
    }
}
