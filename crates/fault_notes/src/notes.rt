//! The whole.
ghost use Rattle.std.specs.Prelude.{IfOk};
ghost use Rattle.fault_notes.specs.Notes.{AreNotes};

use crate::excerpt::excerpt_of;
use crate::lexical::{bad_byte, bad_literal, directive};
use crate::lines::add_line;
use crate::syntax::syntax;
use crate::types::types;
use c_front::FaultKind;
use std::alloc::{AllocError, Global};
use type_notes::Draft;

/// Explains the first fault of a text, at a byte of it or at its end: the line of the text, a caret below the place, and what
/// is wrong there. Each line begins with the mark.
pub fn notes_of(
    alloc: Global,
    mark: &[u8],
    text: &[u8],
    wrong: FaultKind,
    at: usize,
) -> Result<Vec<u8>, AllocError>
    ensures { IfOk result (λ notes. AreNotes mark.now notes.items) }
{
    let message = message(alloc, text, wrong, at)?;
    let excerpt = excerpt_of(alloc, text, at)?;
    let mut notes = Vec::new(alloc);
    add_line(&mut notes, mark, &excerpt.line)?;
    add_line(&mut notes, mark, &excerpt.caret)?;
    add_line(&mut notes, mark, message.as_slice())?;
    Ok(notes)
}

/// What is wrong at the place.
fn message(alloc: Global, text: &[u8], wrong: FaultKind, at: usize) -> Result<Draft, AllocError> {
    let rest = &text[at.min(text.len())..];
    match wrong {
        FaultKind::BadByte => bad_byte(alloc, rest),
        FaultKind::BadLiteral => bad_literal(alloc, rest),
        FaultKind::Directive => directive(alloc, rest),
        FaultKind::TooMany => Draft::of(alloc, "a text has at most 65536 tokens"),
        FaultKind::Syntax => syntax(alloc, text, at),
        FaultKind::TooDeep => Draft::of(
            alloc,
            "a token may be in at most 64 brackets, operands of prefix operators, right sides and statements of others",
        ),
        FaultKind::Kind(kind) => types(alloc, text, kind, at),
    }
}
