//! Lines after a mark.
ghost use Rattle.std.specs.Prelude.{◌≡◌, ◌++◌, OnOk, map};
ghost use Rattle.fault_notes.specs.Notes.{AreNotes, LinesEnd, is_control, note_line, shown};

use std::alloc::AllocError;

/// Adds a line that has some bytes after a mark. A byte that controls a terminal is shown as `?`.
pub fn add_line(text: &mut Vec<u8>, mark: &[u8], bytes: &[u8]) -> Result<(), AllocError>
    ensures line { OnOk result (text.new.items ≡ text.old.items ++ note_line mark.now bytes.now) }
    ensures notes { AreNotes mark.now text.old.items → OnOk result (AreNotes mark.now text.new.items) }
{
    text.extend_from_slice(mark)?;
    add_shown(text, bytes)?;
    text.push(b'\n')?;
    Ok(())
}

/// Adds bytes as a line shows them.
fn add_shown(text: &mut Vec<u8>, bytes: &[u8]) -> Result<(), AllocError>
    ensures { OnOk result (text.new.items ≡ text.old.items ++ map shown bytes.now) }
{
    for byte in bytes {
        text.push(shown(*byte))?;
    }
    Ok(())
}

/// A byte as a line shows it.
fn shown(byte: u8) -> u8
    ensures { result ≡ shown byte }
{
    if is_control(byte) { b'?' } else { byte }
}

/// Whether a byte controls a terminal. The tab doesn't.
fn is_control(byte: u8) -> bool
    ensures { result ≡ is_control byte }
{
    (byte < 32 && byte != 9) || byte == 127
}

/// A line of a note has no newline but its last byte.
pub fn lines_end()
    ensures { LinesEnd }
{}
