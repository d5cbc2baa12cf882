//! The numbers of what has a set.
ghost use Rattle.std.specs.Prelude.{◌≡◌, ℕ, ◌+◌, ◌^◌, ◌<◌, ◌≤◌};
ghost use Rattle.contextual_effects.specs.Edges.{in_block};
ghost use Rattle.contextual_effects.specs.Steps.{Numbers};
ghost use Rattle.checkin_rows.specs.Edges.{landing};

use effect_flow::{Flow, FlowPoint};
use name_sets::NameId;

/// How many points and ids there are. First come the points by their places, as what control goes on from; then the points
/// once more, as what a path ends at; then three blocks with a number for each id: the entries of a function, the entries
/// at which a thread starts, and the points after the calls of a function.
#[derive(Clone, Copy)]
pub(crate) struct Nodes {
    pub(crate) points: usize,
    pub(crate) names: usize,
    ghost fit: { points + points + 8192 < 2 ^ 64 },
    ghost few: { names ≤ 2048 },
}

/// The number of an id in the block that begins at `start`.
fn in_block(start: usize, id: Option<NameId>) -> Option<usize>
    requires { start + 2048 < 2 ^ 64 }
    ensures { result ≡ in_block start id }
{
    match id {
        Some(id) => Some(start + id.index()),
        None => None,
    }
}

impl Nodes {
    /// Those of a flow.
    pub(crate) fn of(flow: &Flow) -> Nodes
        ensures { Numbers result.points result.names flow.now }
    {
        Nodes {
            points: flow.points().len(),
            names: flow.ids_end(),
        }
    }

    /// The node of the point at a place, to which a path leads: the path ends at a check-in, and goes on from another point.
    pub(crate) fn landing(&self, place: usize, point: &FlowPoint) -> usize
        requires { place < self.now.points }
        ensures { result ≡ landing self.now.points place point.now }
    {
        if point.point.kind.is_check_in() {
            self.points + place
        } else {
            place
        }
    }

    /// The point at a place, as what a path ends at.
    pub(crate) fn end(&self, place: usize) -> usize
        requires { place < self.now.points }
        ensures { result ≡ self.now.points + place }
    {
        self.points + place
    }

    /// The entries of a function.
    pub(crate) fn entries(&self, function: Option<NameId>) -> Option<usize>
        ensures { result ≡ in_block (self.now.points + self.now.points) function }
    {
        in_block(self.points + self.points, function)
    }

    /// The entries at which a thread starts that runs a function.
    pub(crate) fn starts(&self, function: Option<NameId>) -> Option<usize>
        ensures { result ≡ in_block (self.now.points + self.now.points + self.now.names) function }
    {
        in_block(self.points + self.points + self.names, function)
    }

    /// The points after the calls of a function.
    pub(crate) fn returns(&self, function: Option<NameId>) -> Option<usize>
        ensures { result
            ≡ in_block (self.now.points + self.now.points + self.now.names + self.now.names) function }
    {
        in_block(
            self.points + self.points + self.names + self.names,
            function,
        )
    }
}
