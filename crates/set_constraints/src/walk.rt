//! The order in which nodes are looked at.
ghost use Rattle.std.specs.Prelude.{◌≡◌, ℕ, ◌<◌, length, IfOk, OnOk};
ghost use Rattle.std.specs.List.{All};
ghost use Rattle.set_constraints.specs.Waiting.{AreListed, HasAll, IsIn, IsOrder};

use crate::constraint::Order;
use crate::links::Links;
use std::alloc::{AllocError, Global};

/// A node on the path of a walk, with the place of the next edge to follow from there.
#[derive(Clone, Copy)]
struct Step {
    node: usize,
    place: usize,
}

/// A walk along the edges, in depth first. Only the time of a solution depends on it, so it promises nothing.
#[derive(Drop)]
struct Walk {
    is_seen: Vec<bool>,
    path: Vec<Step>,
    /// The nodes that the walk is done with, in the order in which it left them.
    left: Vec<usize>,
}

impl Walk {
    /// Goes to a node, unless the walk has been there.
    fn enter(&mut self, links: &Links, node: usize) -> Result<(), AllocError> {
        if let Some(is_seen) = self.is_seen.get_mut(node) {
            if !*is_seen {
                *is_seen = true;
                let place = links.beginning(node);
                self.path.push(Step { node, place })?;
            }
        }
        Ok(())
    }

    /// Follows an edge from the last node of the path, or leaves that node. Answers whether there was one.
    fn turn(&mut self, links: &Links) -> Result<bool, AllocError> {
        let Some(step) = self.path.pop() else {
            return Ok(false);
        };
        match links.after(step.place) {
            Some((target, place)) => {
                let node = step.node;
                self.path.push(Step { node, place })?;
                self.enter(links, target)?;
            }
            None => self.left.push(step.node)?,
        }
        Ok(true)
    }

    /// Goes on until the path is empty. Each turn takes an edge or a node, so there are fewer than the loop has.
    fn finish(&mut self, links: &Links) -> Result<(), AllocError> {
        for _ in 0..u64::MAX {
            if !self.turn(links)? {
                break;
            }
        }
        Ok(())
    }
}

/// The nodes as a walk leaves them, which begins at the nodes in an order.
fn walked(alloc: Global, links: &Links, order: Order) -> Result<Vec<usize>, AllocError> {
    let count = links.nodes();
    let mut walk = Walk {
        is_seen: vec![in alloc; false; count]?,
        path: Vec::with_capacity(alloc, count)?,
        left: Vec::with_capacity(alloc, count)?,
    };
    for place in 0..count {
        walk.enter(links, order.node_at(place, count))?;
        walk.finish(links)?;
    }
    Ok(walk.left)
}

/// Different nodes.
#[derive(Drop)]
struct Listed {
    nodes: Vec<usize>,
    is_in: Vec<bool>,
    ghost known: { All (λ n. n < length is_in.items) nodes.items },
    ghost listed: { AreListed nodes.items is_in.items },
}

impl Listed {
    /// None of the nodes below `count`.
    #[tactic(auto, using(crate::proofs::WaitLemmas::listed_none))]
    fn new(alloc: Global, count: usize) -> Result<Listed, AllocError>
        ensures { IfOk result (λ all. length all.is_in.items ≡ count) }
    {
        let is_in = vec![in alloc; false; count]?;
        let nodes = Vec::with_capacity(alloc, count)?;
        Ok(Listed { nodes, is_in })
    }

    /// Adds a node that isn't there yet.
    #[tactic(auto, using(crate::proofs::WaitLemmas::has_before, crate::proofs::WaitLemmas::has_last, crate::proofs::WaitLemmas::listed_more, crate::proofs::WaitLemmas::known_more))]
    fn add(&mut self, node: usize) -> Result<(), AllocError>
        ensures same { OnOk result (length self.new.is_in.items ≡ length self.old.is_in.items) }
        ensures kept { OnOk result (HasAll self.old.nodes.items self.new.nodes.items) }
        ensures there { OnOk result (node < length self.old.is_in.items → IsIn self.new.nodes.items node) }
    {
        if node < self.is_in.len() && !self.is_in[node] {
            self.nodes.push(node)?;
            self.is_in[node] = true;
        }
        Ok(())
    }
}

/// All nodes, in an order in which most edges lead from a node to a later one: all edges do, where no edges make a loop.
/// Where they do, it goes by the first node of a loop that the walk finds.
pub(crate) fn order_of(alloc: Global, links: &Links, order: Order) -> Result<Vec<usize>, AllocError>
    ensures { IfOk result (λ all. IsOrder (length links.now.last.items) all.items) }
{
    let count = links.nodes();
    let left = walked(alloc, links, order)?;
    let mut all = Listed::new(alloc, count)?;
    for place in 0..left.len() {
        all.add(left[left.len() - 1 - place])?;
    }
    for node in 0..count {
        all.add(node)?;
    }
    Ok(all.nodes)
}
