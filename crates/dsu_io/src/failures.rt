ghost use Rattle.std.specs.Prelude.{◌≡◌, [], OnErr, OnOk};
ghost use Rattle.dsu_io.specs.MemoryFiles.{one_more_failed};

use crate::Text;
use std::alloc::{AllocError, Global};
use std::marker::Model;

/// The reads that failed so far: their number, which stops at 2^64 - 1, and the names of their files.
#[derive(Drop)]
pub(crate) struct Failures {
    count: u64,
    names: Vec<Text>,
}

impl Model for Failures {
    ghost use Rattle.dsu_io.specs.Causes.{FailedReads};

    ghost Value = { FailedReads };

    ghost view = { λ f. record { count = f.count; names = f.names.items } };
}

impl Failures {
    pub(crate) fn new(alloc: Global) -> Failures
        ensures { result ≡ record { count = 0; names = [] } }
    {
        Failures {
            count: 0,
            names: Vec::new(alloc),
        }
    }

    pub(crate) fn count(&self) -> u64
        ensures { result ≡ self.now.count }
    {
        self.count
    }

    /// Adds a read that failed. Out of memory: nothing is added.
    pub(crate) fn add(&mut self, alloc: Global, name: &str) -> Result<(), AllocError>
        ensures added { OnOk result (self.new ≡ one_more_failed self.old name.now) }
        ensures stays { OnErr result (self.new ≡ self.old) }
    {
        let name = Text::of(alloc, name)?;
        self.names.push(name)?;
        self.count = self.count.saturating_add(1);
        Ok(())
    }
}
