//! Edges, and the order in which a walk begins at nodes.
ghost use Rattle.std.specs.Prelude.{◌≡◌, ◌<◌};
ghost use Rattle.set_constraints.specs.Places.{node_at};

/// The set of the node `to` contains that of the node `from`. Nodes go by their number.
#[derive(Clone, Copy)]
pub struct Edge {
    pub from: usize,
    pub to: usize,
}

/// The order in which a walk along the edges begins at nodes that it hasn't come to. The answer doesn't depend on it; the time
/// may, where edges make loops: most edges should lead the same way.
#[derive(Clone, Copy)]
pub enum Order {
    /// From the lowest number on.
    Rising,
    /// From the highest number down.
    Falling,
}

impl Order {
    /// The node at a place of the order of all nodes below `count`.
    pub(crate) fn node_at(self, place: usize, count: usize) -> usize
        requires { place < count }
        ensures { result ≡ node_at self place count }
    {
        match self {
            Order::Rising => place,
            Order::Falling => count - 1 - place,
        }
    }
}
