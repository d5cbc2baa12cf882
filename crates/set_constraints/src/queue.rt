//! The nodes whose sets have yet to be passed on.
ghost use Rattle.std.specs.Prelude.{◌≡◌, ℕ, ◌+◌, ◌<◌, ◌≤◌, true, length, replicate, slice_set, IfOk, IfSome, IfNone};
ghost use Rattle.std.specs.List.{All};
ghost use Rattle.set_constraints.specs.Waiting.{NoneWaits, Takes, IsOrder, IsWaiting, RestFrom, waiting};

use std::alloc::{AllocError, Global};

/// The nodes that wait. They are taken in sweeps over an order of all nodes: a node that is put in before the present place
/// waits for the next sweep.
#[derive(Drop)]
pub(crate) struct Queue {
    waits: Vec<bool>,
    /// The place of the order from which the sweep goes on.
    at: usize,
}

impl Queue {
    /// All nodes below `count`.
    pub(crate) fn of_all(alloc: Global, count: usize) -> Result<Queue, AllocError>
        ensures { IfOk result (λ queue. queue.waits.items ≡ replicate count true) }
    {
        let waits = vec![in alloc; true; count]?;
        Ok(Queue { waits, at: 0 })
    }

    /// Takes the next node of the order out.
    pub(crate) fn take(&mut self, order: &[usize]) -> Option<usize>
        requires { IsOrder (length self.old.waits.items) order.now }
        ensures none { IfNone result (NoneWaits self.old.waits.items) }
        ensures node { IfSome result (λ node. Takes self.old.waits.items node self.new.waits.items) }
        ensures fewer { IfSome result (λ node. waiting self.new.waits.items < waiting self.old.waits.items) }
    {
        let place = self.next(order)?;
        let node = order[place];
        self.waits[node] = false;
        self.at = place + 1;
        Some(node)
    }

    /// Puts a node in.
    pub(crate) fn put(&mut self, node: usize)
        requires { node < length self.old.waits.items }
        ensures waits { self.new.waits.items ≡ slice_set self.old.waits.items node true }
        ensures more { waiting self.new.waits.items ≤ waiting self.old.waits.items + 1 }
    {
        self.waits[node] = true;
    }

    /// The place of the next node that waits: from the present place on, or else from the first one on.
    fn next(&self, order: &[usize]) -> Option<usize>
        requires { IsOrder (length self.now.waits.items) order.now }
        ensures none { IfNone result (NoneWaits self.now.waits.items) }
        ensures place { IfSome result (IsWaiting self.now.waits.items order.now) }
    {
        match self.scan(order, self.at) {
            Some(place) => Some(place),
            None => self.scan(order, 0),
        }
    }

    /// The place of the first node from a place on that waits.
    #[tactic(auto, using(crate::proofs::WaitLemmas::rest_more))]
    fn scan(&self, order: &[usize], from: usize) -> Option<usize>
        requires { All (λ n. n < length self.now.waits.items) order.now }
        ensures none { IfNone result (RestFrom self.now.waits.items order.now from (length order.now)) }
        ensures place { IfSome result (IsWaiting self.now.waits.items order.now) }
    {
        for place in from..order.len() {
            if self.waits[order[place]] {
                return Some(place);
            }
        }
        None
    }
}
