//! Drafts as notes.
ghost use Rattle.std.specs.Prelude.{OnOk};
ghost use Rattle.fault_notes.specs.Notes.{AreNotes};

use fault_notes::add_line;
use std::alloc::AllocError;

/// Adds each of some lines after a mark.
pub fn add_lines(notes: &mut Vec<u8>, mark: &[u8], lines: &[Vec<u8>]) -> Result<(), AllocError>
    ensures { AreNotes mark.now notes.old.items → OnOk result (AreNotes mark.now notes.new.items) }
{
    for line in lines {
        add_line(notes, mark, line)?;
    }
    Ok(())
}
