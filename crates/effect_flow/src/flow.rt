//! The flow.
ghost use Rattle.std.specs.Prelude.{◌≡◌, ℕ, ◌≤◌, List, [], ◌++◌, All, OnOk, OnErr};
ghost use Rattle.name_sets.specs.Limit.{most_names};
ghost use Rattle.name_sets.specs.Texts.{IsTable};
ghost use Rattle.effect_flow.specs.Parts.{HasIdsBelow, points_from};
ghost use Rattle.effect_flow.specs.Flows.{IsFlowOf, AddsBody};

use crate::adding::{points_of, ways_of};
use name_sets::NameId;
use skeletons::{Point, Skeleton};
use std::alloc::{AllocError, Global};
use std::marker::Model;

/// A point of a flow.
#[derive(Clone, Copy)]
pub struct FlowPoint {
    /// The function in whose body it is.
    pub function: NameId,
    /// The generation of the body.
    pub generation: u32,
    /// Its number in the body.
    pub number: usize,
    pub point: Point,
}

/// Control may go from one point to another, in one body, without a point between. Points go by their place in the flow.
#[derive(Clone, Copy)]
pub struct Way {
    pub from: usize,
    pub to: usize,
}

/// The points of some bodies, and the ways between them. Contracts see the two lists.
#[derive(Drop)]
pub struct Flow {
    points: Vec<FlowPoint>,
    ways: Vec<Way>,
}

impl Model for Flow {
    ghost use Rattle.effect_flow.specs.Parts.{Contents};

    ghost Value = { Contents };

    ghost view = { λ f. record { points = f.points.items; ways = f.ways.items } };
}

impl FlowPoint {
    /// The least number above the ids of the point.
    fn ids_end(self) -> usize
        ensures above { HasIdsBelow result self }
        ensures least { (n : ℕ) → HasIdsBelow n self → result ≤ n }
        ensures bound { result ≤ most_names }
    {
        let function = self.function.index();
        match self.point.kind.used() {
            Some(used) => function.max(used.index()) + 1,
            None => function + 1,
        }
    }
}

impl Flow {
    /// The flow of no bodies. It takes no memory yet.
    pub fn new(alloc: Global) -> Flow
        ensures { (names : List (List ℕ)) → IsTable names → IsFlowOf names [] result }
    {
        Flow {
            points: Vec::new(alloc),
            ways: Vec::new(alloc),
        }
    }

    /// The points, one body after another.
    pub fn points(&self) -> &[FlowPoint]
        ensures { result.now ≡ self.now.points }
    {
        self.points.as_slice()
    }

    /// The ways, in the order of the points from which they go.
    pub fn ways(&self) -> &[Way]
        ensures { result.now ≡ self.now.ways }
    {
        self.ways.as_slice()
    }

    /// The least number above the ids of all points.
    pub fn ids_end(&self) -> usize
        ensures above { All (HasIdsBelow result) self.now.points }
        ensures least { (n : ℕ) → All (HasIdsBelow n) self.now.points → result ≤ n }
        ensures bound { result ≤ most_names }
    {
        let mut end: usize = 0;
        for point in &self.points {
            end = end.max(point.ids_end());
        }
        end
    }

    /// Adds the points and ways of a body, after those that are there. What `next` has past the last point, and targets
    /// that are no points of the body, are passed over.
    pub fn add(
        &mut self,
        function: NameId,
        generation: u32,
        skeleton: &Skeleton,
    ) -> Result<(), AllocError>
        ensures body { OnOk result (AddsBody self.old function generation skeleton.now self.new) }
        ensures points { OnOk result (self.new.points
            ≡ self.old.points ++ points_from function generation 0 skeleton.now.points.items) }
        ensures fault { OnErr result (self.new ≡ self.old) }
    {
        let before = self.points.len();
        let size = skeleton.points.len();
        let alloc = *self.points.allocator();
        let points = points_of(alloc, function, generation, &skeleton.points)?;
        let ways = ways_of(alloc, before, size, &skeleton.next)?;
        self.append(&points, &ways)
    }

    /// Adds some points and ways.
    fn append(&mut self, points: &[FlowPoint], ways: &[Way]) -> Result<(), AllocError>
        ensures points { OnOk result (self.new.points ≡ self.old.points ++ points.now) }
        ensures ways { OnOk result (self.new.ways ≡ self.old.ways ++ ways.now) }
        ensures fault { OnErr result (self.new ≡ self.old) }
    {
        let before = self.points.len();
        self.points.extend_from_slice(points)?;
        let added = self.ways.extend_from_slice(ways);
        if added.is_err() {
            self.points.truncate(before);
        }
        added
    }
}
