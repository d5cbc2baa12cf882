ghost use Rattle.std.specs.Prelude.{◌≡◌, ◌⊎◌, ◌≤◌, ◌<◌, ◌+◌, [], take, ℕ, List, length, map, string_bytes, OnOk, IsErrOf, IsTrue, MatchOption, Some, None};
ghost use Rattle.dsu_io.specs.Causes.{NoneFailed, ReadFailed};
ghost use Rattle.dsu_io.specs.Files.{IsContent, IsCutAt};
ghost use Rattle.dsu_io.specs.MemoryFiles.{content_of, read_fails, after_read};

use crate::failures::Failures;
use crate::{FileFault, Files};
use std::alloc::Global;
use std::marker::Model;

/// Files in memory. The reads whose numbers are listed fail, and those of names that it doesn't have.
#[derive(Drop)]
pub struct MemoryFiles {
    files: Vec<(String, Vec<u8>)>,
    failing: Vec<u64>,
    calls: u64,
    faults: Failures,
    alloc: Global,
}

impl Model for MemoryFiles {
    ghost use Rattle.std.specs.Prelude.{map, string_bytes};
    ghost use Rattle.dsu_io.specs.MemoryFiles.{Folder};

    ghost Value = { Folder };

    ghost view = { λ m. record {
      files = map (λ file. (string_bytes file.0, file.1.items)) m.files.items;
      failing = m.failing.items;
      calls = m.calls;
      faults = m.faults;
    } };
}

impl MemoryFiles {
    /// Files by name; of two with one name the first is read. Reads are counted from 1, and those whose
    /// numbers are in `failing` fail. Memory is taken for the names of reads that fail alone, where they fail.
    pub fn of(alloc: Global, files: Vec<(String, Vec<u8>)>, failing: Vec<u64>) -> MemoryFiles
        ensures { result ≡ record {
          files = map (λ file. (string_bytes file.0, file.1.items)) files.items;
          failing = failing.items;
          calls = 0;
          faults = record { count = 0; names = [] };
        } }
    {
        MemoryFiles {
            files,
            failing,
            calls: 0,
            faults: Failures::new(alloc),
            alloc,
        }
    }

    /// How often a read has failed.
    pub fn faults(&self) -> u64
        ensures { result ≡ self.now.faults.count }
    {
        self.faults.count()
    }
}

// The content of the first file with this name.
fn find<'a>(files: &'a [(String, Vec<u8>)], name: &str) -> Option<&'a [u8]>
    ensures { let held = map (λ file. (string_bytes file.0, file.1.items)) files.now in
        MatchOption result (content_of held name.now ≡ None) (λ found. content_of held name.now ≡ Some found.now) }
{
    for file in files {
        if file.0.as_str() == name {
            return Some(file.1.as_slice());
        }
    }
    None
}

// Copies a content that has at most `limit` bytes, and of a longer one the bytes that show it.
fn copy_up_to(limit: usize, content: &[u8], into: &mut Vec<u8>) -> Result<(), FileFault>
    requires { into.old.items ≡ [] }
    ensures whole { OnOk result ((into.new.items ≡ content.now) × (length content.now ≤ limit)) }
    ensures too_long { IsErrOf result FileFault.TooLong
        → (limit < length content.now) × (into.new.items ≡ take (limit + 1) content.now) }
    ensures no_failure { IsErrOf result FileFault.Failed → ⊥ }
{
    if content.len() > limit {
        into.extend_from_slice(&content[..limit + 1])?;
        return Err(FileFault::TooLong);
    }
    into.extend_from_slice(content)?;
    Ok(())
}

impl Files for MemoryFiles {
    ghost content = { λ m name. content_of m.files name };

    ghost faults = { λ m. m.faults };

    fn read(&mut self, name: &str, into: &mut Vec<u8>, limit: usize) -> Result<(), FileFault>
        ensures same { (other : List ℕ) → content_of self.new.files other ≡ content_of self.old.files other }
        ensures read { OnOk result (IsContent (content_of self.old.files name.now) into.new.items) }
        ensures fits { OnOk result (length into.new.items ≤ limit) }
        ensures too_long { IsErrOf result FileFault.TooLong
            → IsCutAt limit (content_of self.old.files name.now) into.new.items }
        ensures failed { IsErrOf result FileFault.Failed → ReadFailed name.now self.old.faults self.new.faults }
        ensures none_failed { (IsErrOf result FileFault.Failed → ⊥) → NoneFailed self.old.faults self.new.faults }

        // It fails where it is to fail or has no such file, and nowhere else. There may be no memory for the name.
        ensures fails { IsTrue (read_fails self.old name.now) → IsErrOf result FileFault.Failed ⊎ IsErrOf result FileFault.Memory }
        ensures fails_only { IsErrOf result FileFault.Failed → IsTrue (read_fails self.old name.now) }
        ensures after { (IsErrOf result FileFault.Memory → ⊥) → self.new ≡ after_read self.old name.now }
    {
        self.calls = self.calls.saturating_add(1);
        into.clear();
        if self.failing.contains(&self.calls) {
            self.faults.add(self.alloc, name)?;
            return Err(FileFault::Failed);
        }
        let Some(content) = find(&self.files, name) else {
            self.faults.add(self.alloc, name)?;
            return Err(FileFault::Failed);
        };
        copy_up_to(limit, content, into)
    }
}
