//! A report that is kept.
ghost use Rattle.std.specs.Prelude.{◌≡◌, [], Some, nat_lt};

use dsu_io::{Failed, Sink};
use std::alloc::Global;
use std::marker::Model;

/// A sink that keeps its bytes in memory, which grows with them. A write for which there is no memory counts as a fault.
#[derive(Drop)]
pub struct Report {
    bytes: Vec<u8>,
    faults: u64,
}

impl Model for Report {
    ghost use Rattle.noted_reports.specs.NotedReports.{Kept};

    ghost Value = { Kept };

    ghost view = { λ r. record { bytes = r.bytes.items; faults = r.faults } };
}

impl Report {
    /// An empty report. No memory is taken.
    pub fn new(alloc: Global) -> Report
        ensures { result ≡ record { bytes = []; faults = 0 } }
    {
        Report {
            bytes: Vec::new(alloc),
            faults: 0,
        }
    }

    /// What was written so far.
    pub fn bytes(&self) -> &[u8]
        ensures { result.now ≡ self.now.bytes }
    {
        self.bytes.as_slice()
    }

    /// Gives the bytes back; no memory is taken.
    pub fn into_bytes(self) -> Vec<u8>
        ensures { result.items ≡ self.bytes }
    {
        let Report { bytes, .. } = self;
        bytes
    }

    /// Whether there was no memory for a write.
    pub fn is_short(&self) -> bool
        ensures { result ≡ nat_lt 0 self.now.faults }
    {
        self.faults > 0
    }
}

impl Sink for Report {
    ghost told = { λ r. Some r.bytes };

    ghost faults = { λ r. r.faults };

    fn write(&mut self, bytes: &[u8]) -> Result<usize, Failed> {
        match self.bytes.extend_from_slice(bytes) {
            Ok(()) => Ok(bytes.len()),
            Err(_) => {
                self.faults = self.faults.saturating_add(1);
                Err(Failed)
            }
        }
    }
}
