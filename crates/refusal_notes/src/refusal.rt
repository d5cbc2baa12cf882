//! The notes of a refusal.
ghost use Rattle.std.specs.Prelude.{OnOk};
ghost use Rattle.fault_notes.specs.Notes.{AreNotes};

use crate::admitting::say_admitting;
use crate::code::Code;
use crate::position::say_position;
use crate::stand::Stand;
use crate::uses::say_effect;
use con_freeness::Effect;
use offer_drafts::{Draft, Thread, add_lines};
use std::alloc::{AllocError, Global};

/// Adds notes on a refusal by a thread, for an effect whose ids are those of the names of the versions so far: where the thread
/// is, where it may use the names, and which check-ins of its function would admit the text. Each line begins with the mark.
pub fn add_refusal_notes(
    alloc: Global,
    mark: &[u8],
    stand: &Stand<'_>,
    thread: &Thread<'_>,
    effect: Effect,
    notes: &mut Vec<u8>,
) -> Result<(), AllocError>
    ensures { AreNotes mark.now notes.old.items → OnOk result (AreNotes mark.now notes.new.items) }
{
    let draft = refusal(alloc, stand, thread, effect)?;
    add_lines(notes, mark, draft.lines())
}

/// The lines of the notes.
fn refusal(
    alloc: Global,
    stand: &Stand<'_>,
    thread: &Thread<'_>,
    effect: Effect,
) -> Result<Draft, AllocError> {
    let code = Code::of(alloc, stand.versions)?;
    let mut draft = Draft::new(alloc);
    say_position(&mut draft, stand, &code, thread);
    say_effect(&mut draft, stand, &code, thread, effect);
    say_admitting(&mut draft, stand, &code, thread);
    draft.done()
}
