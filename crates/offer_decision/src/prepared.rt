//! What is known of an offer before the threads are looked at.
use c_types::Typed;
use checkin_rows::Rows;
use patch_build::{Patch, Versions};
use source_model::NotPatch;
use std::alloc::Global;
use std::sync::Arc;

/// What preparing an offer needs.
#[derive(Clone, Copy)]
pub struct Offered<'a> {
    /// The versions so far.
    pub versions: Versions<'a>,
    /// The text that is offered.
    pub text: &'a Typed,
    /// The rows over the bodies of these versions, if they were computed before.
    pub rows: Option<&'a Arc<Rows, Global>>,
}

/// What is known of an offer before the threads are looked at.
#[derive(Drop)]
pub struct Prepared {
    /// How many versions there were.
    pub versions: u32,
    /// What was found of its text.
    pub found: Found,
}

/// What was found of a text that is offered.
#[derive(Drop)]
pub enum Found {
    /// It is a patch of the versions: what its install needs, and the rows over their bodies, by which it is tested.
    Patch(Patch, Arc<Rows, Global>),
    /// It isn't a patch of them, for this first cause.
    NotPatch(NotPatch),
}
