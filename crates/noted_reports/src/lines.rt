//! Notes between the lines of a report.
ghost use Rattle.std.specs.Prelude.{◌≡◌, ◌++◌, ⊤, All, IfOk, OnOk, MatchOption};
ghost use Rattle.fault_notes.specs.Notes.{AreNotes};
ghost use Rattle.noted_reports.specs.NotedReports.{AddsLine, IsLine, WithNotes, run_mark};

use memchr::memchr;
use std::alloc::{AllocError, Global};

/// What a line of notes begins with after the line of a fault.
pub const FAULT_MARK: &[u8] = b"  ";

/// How the lines of a run's report begin after which notes may come: those of an answer to an offer, of a trap, of a cut, and
/// of what a thread waits for.
const EXPLAINED: [&[u8]; 4] = [b"# offer ", b"# trap ", b"# cut", b"# thread "];

/// The report of a run with notes. Each line that may have notes takes the next of them, if one is left.
pub fn interleave(alloc: Global, report: &[u8], notes: &[Vec<u8>]) -> Result<Vec<u8>, AllocError>
    ensures { All (λ n. AreNotes run_mark n.items) notes.now → IfOk result (λ text. WithNotes run_mark report.now text.items) }
{
    let mut text = Vec::new(alloc);
    let mut left = notes;
    let mut rest = report;
    while let Some((line, after)) = first_line(rest) {
        left = add_explained(&mut text, line, left)?;
        rest = after;
    }
    text.extend_from_slice(rest)?;
    Ok(text)
}

/// The first line of a text with its newline, and the text after it.
fn first_line(text: &[u8]) -> Option<(&[u8], &[u8])>
    ensures { MatchOption result ⊤ (λ parts. IsLine parts.0.now × (text.now ≡ parts.0.now ++ parts.1.now)) }
{
    match memchr(b'\n', text) {
        Some(end) => Some((&text[..end + 1], &text[end + 1..])),
        None => None,
    }
}

/// Adds a line, and the first of the notes after it where it may have some. What is left of them is given back.
fn add_explained<'a>(
    text: &mut Vec<u8>,
    line: &[u8],
    notes: &'a [Vec<u8>],
) -> Result<&'a [Vec<u8>], AllocError>
    ensures line { All (λ n. AreNotes run_mark n.items) notes.now → OnOk result (AddsLine run_mark line.now text.old.items text.new.items) }
    ensures left { All (λ n. AreNotes run_mark n.items) notes.now → IfOk result (λ left. All (λ n. AreNotes run_mark n.items) left.now) }
{
    text.extend_from_slice(line)?;
    match notes.split_first() {
        Some((first, left)) if is_explained(line) => {
            text.extend_from_slice(first)?;
            Ok(left)
        }
        _ => Ok(notes),
    }
}

/// Whether notes may come after a line.
fn is_explained(line: &[u8]) -> bool {
    for start in EXPLAINED {
        if line.starts_with(start) {
            return true;
        }
    }
    false
}
