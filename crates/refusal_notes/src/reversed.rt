//! Ways backwards.
use dsu_io::List;
use skeletons::Skeleton;
use std::alloc::{AllocError, Global};

/// A way from one point of a body to another.
#[derive(Clone, Copy)]
struct Step {
    from: usize,
    to: u32,
}

/// Adds the steps from a point.
fn add_steps(steps: &mut Vec<Step>, from: usize, targets: &[u32]) -> Result<(), AllocError> {
    for to in targets {
        steps.push(Step { from, to: *to })?;
    }
    Ok(())
}

/// The steps of a body, by the points to which they go.
fn steps_of(alloc: Global, skeleton: &Skeleton) -> Result<Vec<Step>, AllocError> {
    let mut steps = Vec::new(alloc);
    for point in 0..skeleton.next.len() {
        add_steps(&mut steps, point, skeleton.next[point].as_slice())?;
    }
    steps.sort_by_key(|step| step.to)?;
    Ok(steps)
}

/// The points from which some steps go to a point.
fn origins(alloc: Global, steps: &[Step], to: usize) -> Result<Vec<usize>, AllocError> {
    let first = steps.partition_point(|step| (step.to as usize) < to);
    let mut found = Vec::new(alloc);
    for index in first..steps.len() {
        if steps[index].to as usize != to {
            return Ok(found);
        }
        found.push(steps[index].from)?;
    }
    Ok(found)
}

/// For each point of a body those from which control may go to it without a point between.
fn reversed(alloc: Global, skeleton: &Skeleton) -> Result<Vec<List<usize>>, AllocError> {
    let steps = steps_of(alloc, skeleton)?;
    all_origins(alloc, &steps, skeleton.points.len())
}

/// For each of so many points those from which some steps go to it.
fn all_origins(
    alloc: Global,
    steps: &[Step],
    count: usize,
) -> Result<Vec<List<usize>>, AllocError> {
    let mut lists = Vec::new(alloc);
    for point in 0..count {
        let found = origins(alloc, steps, point)?;
        lists.push(List::of(found))?;
    }
    Ok(lists)
}

/// The ways backwards of bodies, by the places of these in the store. Those of a body are made once.
#[derive(Drop)]
pub(crate) struct Backwards {
    alloc: Global,
    bodies: Vec<Option<Vec<List<usize>>>>,
}

impl Backwards {
    /// Those of so many bodies.
    pub(crate) fn new(alloc: Global, count: usize) -> Result<Backwards, AllocError> {
        let mut bodies = Vec::new(alloc);
        for _ in 0..count {
            bodies.push(None)?;
        }
        Ok(Backwards { alloc, bodies })
    }

    /// Makes those of a body, unless they are made.
    pub(crate) fn make(&mut self, place: usize, skeleton: &Skeleton) -> Result<(), AllocError> {
        if place < self.bodies.len() && self.bodies[place].is_none() {
            let lists = reversed(self.alloc, skeleton)?;
            self.bodies[place] = Some(lists);
        }
        Ok(())
    }

    /// Those of a body; none unless they are made.
    pub(crate) fn of(&self, place: usize) -> &[List<usize>] {
        match self.bodies.get(place) {
            Some(Some(lists)) => lists.as_slice(),
            _ => &[],
        }
    }
}
