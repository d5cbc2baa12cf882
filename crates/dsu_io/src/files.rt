ghost use Rattle.std.specs.Prelude.{◌≡◌, ◌≤◌, List, ℕ, length, Option, OnOk, IsErrOf};
ghost use Rattle.dsu_io.specs.Causes.{FailedReads, NoneFailed, ReadFailed};
ghost use Rattle.dsu_io.specs.Files.{IsContent, IsCutAt};

use std::alloc::AllocError;

/// Why a file wasn't read whole.
#[derive(Clone, Copy, Debug, PartialEq, Eq)]
pub enum FileFault {
    /// It couldn't be opened or read.
    Failed,
    /// It is longer than the limit.
    TooLong,
    /// There was no memory for its bytes.
    Memory,
}

impl From<AllocError> for FileFault {
    ghost use Rattle.dsu_io.specs.declared.files.FileFault.TheVariants.{Memory};

    ghost from_gives = { λ _ e. e ≡ Memory };

    fn from(_: AllocError) -> FileFault {
        FileFault::Memory
    }
}

/// Files that are read whole, by name.
pub trait Files {
    /// The content of the file with a name, where it is known.
    ghost content: { Self → List ℕ → Option (List ℕ) };

    /// How often opening or reading has failed, and the names of the files of these reads in order; the count stops at
    /// 2^64 - 1.
    ghost faults: { Self → FailedReads };

    /// Reads the file `name` into `into`, in place of what was there, where it has at most `limit`
    /// bytes. At `TooLong` its first `limit + 1` bytes are there, at the other faults some bytes.
    fn read(&mut self, name: &str, into: &mut Vec<u8>, limit: usize) -> Result<(), FileFault>
        ensures same { (other : List ℕ) → content self.new other ≡ content self.old other }
        ensures read { OnOk result (IsContent (content self.old name.now) into.new.items) }
        ensures fits { OnOk result (length into.new.items ≤ limit) }

        ensures too_long { IsErrOf result FileFault.TooLong
            → IsCutAt limit (content self.old name.now) into.new.items }

        ensures failed { IsErrOf result FileFault.Failed → ReadFailed name.now (faults self.old) (faults self.new) }
        ensures none_failed { (IsErrOf result FileFault.Failed → ⊥) → NoneFailed (faults self.old) (faults self.new) };
}
