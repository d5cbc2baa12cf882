//! The numbers of what has a set.
ghost use Rattle.std.specs.Prelude.{◌≡◌, ◌+◌, ◌^◌, ◌<◌, ◌≤◌};
ghost use Rattle.contextual_effects.specs.Edges.{in_block};
ghost use Rattle.contextual_effects.specs.Steps.{Numbers};

use effect_flow::Flow;
use name_sets::NameId;

/// How many points and ids there are. Points go by their places; then come three blocks with a number for each id: the
/// calls of a function, a function as a whole, and a name.
#[derive(Clone, Copy)]
pub(crate) struct Nodes {
    pub(crate) points: usize,
    pub(crate) names: usize,
    ghost fit: { points + 8192 < 2 ^ 64 },
    ghost few: { names ≤ 2048 },
}

/// The number of an id in the block that begins at `start`.
fn in_block(start: usize, id: Option<NameId>) -> Option<usize>
    requires { start + 2048 < 2 ^ 64 }
    ensures { result ≡ in_block start id }
{
    match id {
        Some(id) => Some(start + id.index()),
        None => None,
    }
}

impl Nodes {
    /// Those of a flow.
    pub(crate) fn of(flow: &Flow) -> Nodes
        ensures { Numbers result.points result.names flow.now }
    {
        Nodes {
            points: flow.points().len(),
            names: flow.ids_end(),
        }
    }

    /// How many there are.
    pub(crate) fn count(&self) -> usize
        ensures { result ≡ self.now.points + self.now.names + self.now.names + self.now.names }
    {
        self.points + 3 * self.names
    }

    /// A function in the system for nested functions, in which it has its id.
    pub(crate) fn alone(&self, id: Option<NameId>) -> Option<usize>
        ensures { result ≡ in_block 0 id }
    {
        in_block(0, id)
    }

    /// The calls of a function.
    pub(crate) fn calls(&self, function: Option<NameId>) -> Option<usize>
        ensures { result ≡ in_block self.now.points function }
    {
        in_block(self.points, function)
    }

    /// A function as a whole.
    pub(crate) fn whole(&self, function: Option<NameId>) -> Option<usize>
        ensures { result ≡ in_block (self.now.points + self.now.names) function }
    {
        in_block(self.points + self.names, function)
    }

    /// A name.
    pub(crate) fn name(&self, name: Option<NameId>) -> Option<usize>
        ensures { result ≡ in_block (self.now.points + self.now.names + self.now.names) name }
    {
        in_block(self.points + self.names + self.names, name)
    }
}
