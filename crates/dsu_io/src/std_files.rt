ghost use Rattle.std.specs.Prelude.{◌≡◌, ◌≤◌, ◌<◌, ◌+◌, [], ℕ, List, length, OnOk, IsErrOf, None};

use crate::failures::Failures;
use crate::{FileFault, Files};
use std::alloc::Global;
use std::fs;
use std::io::Read;
use std::rt::Files as FileSystem;

/// How many bytes are asked of a file at once.
const PIECE: usize = 16_384;

/// The files of the file system. Each failure to open or to read counts as a fault. What a file holds
/// is not known here, so contents aren't told.
#[derive(Drop)]
pub struct StdFiles<'a, R: FileSystem> {
    rt: &'a R,
    alloc: Global,
    faults: Failures,
}

impl<'a, R: FileSystem> StdFiles<'a, R> {
    /// Memory is taken for the names of reads that fail alone, where they fail.
    pub fn new(rt: &'a R, alloc: Global) -> StdFiles<'a, R>
        ensures { result.faults ≡ record { count = 0; names = [] } }
    {
        StdFiles {
            rt,
            alloc,
            faults: Failures::new(alloc),
        }
    }

    /// How often opening or reading has failed.
    pub fn faults(&self) -> u64
        ensures { result ≡ self.now.faults.count }
    {
        self.faults.count()
    }
}

// Reads on to the end of the file, or until there is more than the limit.
fn read_up_to<F: Read>(file: &mut F, into: &mut Vec<u8>, limit: usize) -> Result<(), FileFault>
    requires { into.old.items ≡ [] }
    ensures fits { OnOk result (length into.new.items ≤ limit) }
    ensures too_long { IsErrOf result FileFault.TooLong → length into.new.items ≡ limit + 1 }
{
    let mut piece = [0u8; PIECE];
    while into.len() <= limit {
        let most = (limit - into.len()).min(PIECE - 1) + 1;
        match file.read(&mut piece[..most]) {
            Ok(0) => return Ok(()),
            Ok(count) => into.extend_from_slice(&piece[..count])?,
            Err(_) => return Err(FileFault::Failed),
        }
    }
    Err(FileFault::TooLong)
}

impl<R: FileSystem> Files for StdFiles<'_, R> {
    ghost content = { λ _ _. None };

    ghost faults = { λ s. s.faults };

    fn read(&mut self, name: &str, into: &mut Vec<u8>, limit: usize) -> Result<(), FileFault> {
        into.clear();
        let result = match fs::open(self.rt, name) {
            Ok(mut file) => read_up_to(&mut file, into, limit),
            Err(_) => Err(FileFault::Failed),
        };
        if let Err(FileFault::Failed) = result {
            self.faults.add(self.alloc, name)?;
        }
        result
    }
}
