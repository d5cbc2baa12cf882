ghost use Rattle.std.specs.Prelude.{◌≡◌, ◌⊎◌, ◌≤◌, ℕ, List, length, IfOk, IfErr, IsErrOf};
ghost use Rattle.dsu_io.specs.Causes.{NoneFailed, ReadFailed};
ghost use Rattle.dsu_io.specs.Files.{IsContent};
ghost use Rattle.input_files.specs.Files.{Exceeds, IsOfFile};

use dsu_io::{FileFault, Files};
use dsu_report::FaultLine;
use std::alloc::Global;

/// The bytes of a file, where it has at most so many.
pub(crate) fn bytes_of<F: Files>(
    alloc: Global,
    files: &mut F,
    file: &str,
    limit: usize,
) -> Result<Vec<u8>, FaultLine>
    ensures read { IfOk result (λ text. IsContent (F.content files.old file.now) text.items × (length text.items ≤ limit)) }
    ensures unread { IsErrOf result FaultLine.Unread → ReadFailed file.now (F.faults files.old) (F.faults files.new) }
    ensures none_failed { (IsErrOf result FaultLine.Unread → ⊥) → NoneFailed (F.faults files.old) (F.faults files.new) }
    ensures too_long { IsErrOf result FaultLine.TooLong → Exceeds limit (F.content files.old file.now) }
    ensures others { IfErr result IsOfFile }
    ensures same { (other : List ℕ) → F.content files.new other ≡ F.content files.old other }
{
    let mut text = Vec::new(alloc);
    match files.read(file, &mut text, limit) {
        Ok(()) => Ok(text),
        Err(FileFault::Failed) => Err(FaultLine::Unread),
        Err(FileFault::TooLong) => Err(FaultLine::TooLong),
        Err(FileFault::Memory) => Err(FaultLine::Memory),
    }
}
