//! The texts of the versions of a run, by number.
ghost use Rattle.std.specs.Prelude.{◌≡◌, ℕ, ◌∷◌, [], ◌++◌, IfOk, List, OnErr, OnOk, length, slice_get};

use std::alloc::{AllocError, Global};
use std::marker::Model;

/// How many versions there is room for from the start.
const ROOM: usize = 64;

/// The number of each version's text, in the order of the versions. Contracts see their list.
#[derive(Drop)]
pub(crate) struct Versions {
    numbers: Vec<usize>,
}

impl Model for Versions {
    ghost Value = { List ℕ };

    ghost view = { λ versions. versions.numbers.items };
}

impl Versions {
    /// The first version alone, which is of the first text.
    pub(crate) fn first(alloc: Global) -> Result<Versions, AllocError>
        ensures { IfOk result (λ versions. versions ≡ 0 ∷ []) }
    {
        let mut numbers = Vec::with_capacity(alloc, ROOM)?;
        numbers.push(0)?;
        Ok(Versions { numbers })
    }

    /// How many versions there are.
    pub(crate) fn len(&self) -> usize
        ensures { result ≡ length self.now }
    {
        self.numbers.len()
    }

    /// The text of a version, of which the first has place 0.
    pub(crate) fn get(&self, place: usize) -> Option<usize>
        ensures { result ≡ slice_get self.now place }
    {
        self.numbers.get(place).copied()
    }

    /// One more version. Lack of memory changes nothing.
    pub(crate) fn push(&mut self, number: usize) -> Result<(), AllocError>
        ensures longer { OnOk result (self.new ≡ self.old ++ number ∷ []) }
        ensures fault { OnErr result (self.new ≡ self.old) }
    {
        self.numbers.push(number)?;
        Ok(())
    }
}
