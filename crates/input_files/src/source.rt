ghost use Rattle.std.specs.Prelude.{◌≡◌, ◌⊎◌, ◌≤◌, ℕ, List, length, IfOk, IfErr, IsErrOf, MatchResult, Some, Err};
ghost use Rattle.dsu_io.specs.Causes.{NoneFailed, ReadFailed};
ghost use Rattle.c_tree.specs.declared.def.Program.{Program};
ghost use Rattle.c_front.specs.declared.fault.FaultKind.{FaultKind};
ghost use Rattle.c_front.specs.Accepted.{Accepted, FirstFault};
ghost use Rattle.input_files.specs.Lines.{line_of};
ghost use Rattle.input_files.specs.Files.{Exceeds, IsShort};
ghost use Rattle.input_files.specs.Sources.{IsFirstLine, IsOfSource, IsSource, text_limit};

use crate::bytes::bytes_of;
use c_front::{FaultKind, TextFault, read_text};
use c_types::Typed;
use dsu_io::Files;
use dsu_report::{FaultLine, place_of};
use std::alloc::Global;

/// How many bytes a C text may have.
pub const TEXT_LIMIT: usize = 1024 * 1024;

/// A file's text and its tree.
#[derive(Drop)]
pub struct Source {
    pub text: Vec<u8>,
    pub typed: Typed,
}

// The line of a fault at a byte of a text, or at its end.
fn line_of(text: &[u8], wrong: FaultKind, at: usize) -> FaultLine
    requires fits { length text.now ≤ TEXT_LIMIT }
    requires within { at ≤ length text.now }
    ensures { result ≡ line_of text.now wrong at }
{
    let place = place_of(text, at);
    FaultLine::Place(place.line, place.column, wrong)
}

/// The tree of a text, or the line of its first fault.
pub fn tree_of(alloc: Global, text: &[u8]) -> Result<Typed, FaultLine>
    requires { length text.now ≤ TEXT_LIMIT }
    ensures accepted { IfOk result (λ typed. Accepted text.now typed) }
    ensures refused { IfErr result (λ line. (line ≡ FaultLine.Memory) ⊎ IsFirstLine text.now line) }
    ensures complete { (program : Program) → Accepted text.now program
        → MatchResult result (λ typed. typed ≡ program) (λ line. line ≡ FaultLine.Memory) }
    ensures first { (what : FaultKind) (at : ℕ) → FirstFault text.now what at
        → (result ≡ Err (line_of text.now what at)) ⊎ (result ≡ Err FaultLine.Memory) }
{
    match read_text(alloc, text) {
        Ok(typed) => Ok(typed),
        Err(TextFault::Refused(wrong, at)) => Err(line_of(text, wrong, at)),
        Err(TextFault::Memory) => Err(FaultLine::Memory),
    }
}

/// Reads the file, and its text.
pub fn source_of<F: Files>(alloc: Global, files: &mut F, file: &str) -> Result<Source, FaultLine>
    ensures read { IfOk result (λ source. IsSource (F.content files.old file.now) source.text.items source.typed) }
    ensures unread { IsErrOf result FaultLine.Unread → ReadFailed file.now (F.faults files.old) (F.faults files.new) }
    ensures none_failed { (IsErrOf result FaultLine.Unread → ⊥) → NoneFailed (F.faults files.old) (F.faults files.new) }
    ensures too_long { IsErrOf result FaultLine.TooLong → Exceeds text_limit (F.content files.old file.now) }
    ensures others { IfErr result (λ line. IsOfSource (F.content files.old file.now) line) }
    ensures same { (other : List ℕ) → F.content files.new other ≡ F.content files.old other }
    // A text that is known and accepted is read, if the file and memory don't fail.
    ensures complete { (text : List ℕ) (program : Program) → F.content files.old file.now ≡ Some text → length text ≤ text_limit
        → Accepted text program → MatchResult result (λ source. source.typed ≡ program) IsShort }
    // And the first fault of a text that is known is answered.
    ensures first { (text : List ℕ) (what : FaultKind) (at : ℕ) → F.content files.old file.now ≡ Some text → length text ≤ text_limit
        → FirstFault text what at → IsErrOf result (line_of text what at) ⊎ IsErrOf result FaultLine.Unread ⊎ IsErrOf result FaultLine.Memory }
{
    let text = bytes_of(alloc, files, file, TEXT_LIMIT)?;
    let typed = tree_of(alloc, &text)?;
    Ok(Source { text, typed })
}
