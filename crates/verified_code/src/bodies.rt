//! The bodies of a run.
ghost use Rattle.std.specs.Prelude.{◌≡◌, ◌<◌, ℕ, Some, IfOk, length, slice_get};
ghost use Rattle.std.specs.List.{position};
ghost use Rattle.verified_code.specs.Places.{is_of, place_in};

use crate::places::Places;
use crate::unit::CodeUnit;
use name_sets::NameId;
use std::alloc::{AllocError, Global};

/// The verified bodies of all versions of a run, found by function and generation. It never changes, so threads may share it.
#[derive(Drop)]
pub struct Bodies {
    pub units: Vec<CodeUnit>,
    places: Places,
    ghost placed: { (f g : ℕ) → place_in places f g ≡ position (is_of f g) units.items },
}

impl Bodies {
    /// Bodies in one table. It takes memory for each function up to the greatest number among them, and for each generation of
    /// a function up to the last one that brings a body of it.
    pub fn new(alloc: Global, units: Vec<CodeUnit>) -> Result<Bodies, AllocError>
        ensures { IfOk result (λ bodies. bodies.units.items ≡ units.items) }
    {
        let mut places = Places::new(alloc);
        let mut left = units.len();
        while left > 0 {
            left -= 1;
            places.put(
                alloc,
                units[left].function.index(),
                units[left].generation as usize,
                left,
            )?;
        }
        Ok(Bodies { units, places })
    }

    /// The first body of a function that a version brought. It takes the same time whatever the number of bodies.
    pub fn find(&self, function: NameId, generation: u32) -> Option<usize>
        ensures { result ≡ position (is_of function generation) self.now.units.items }
    {
        self.places.find(function.index(), generation as usize)
    }

    /// A body by its place.
    #[inline(always)]
    pub fn at(&self, place: usize) -> &CodeUnit
        requires { place < length self.now.units.items }
        ensures { slice_get self.now.units.items place ≡ Some result.now }
    {
        &self.units[place]
    }
}
