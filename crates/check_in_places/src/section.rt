//! What is known of check-ins.
use effect_flow::Flow;
use name_sets::NameId;
use skeletons::{CheckInKind, Skeleton};

/// A check-in of a body.
#[derive(Clone, Copy)]
pub struct Spot {
    /// Its number among the points of the body.
    pub number: usize,
    /// How many check-ins of the body come before it.
    pub before: usize,
    /// Its place among the points of the flow.
    pub point: usize,
    /// The byte of the text where it is.
    pub at: usize,
    pub kind: CheckInKind,
}

/// A function with the check-ins of its body.
#[derive(Drop)]
pub struct Section {
    pub function: NameId,
    /// In the order of their places.
    pub spots: Vec<Spot>,
}

/// What is known of a function's body: its skeleton, and the place of each of its points.
#[derive(Drop)]
pub(crate) struct Outline {
    pub skeleton: Skeleton,
    pub places: Vec<usize>,
}

/// The bodies of functions: their flow, and their check-ins.
#[derive(Drop)]
pub struct Bodies {
    pub flow: Flow,
    pub sections: Vec<Section>,
}
