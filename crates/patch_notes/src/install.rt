//! The notes of an install.
ghost use Rattle.std.specs.Prelude.{OnOk};
ghost use Rattle.fault_notes.specs.Notes.{AreNotes};

use crate::initials::say_initials;
use crate::still::say_still;
use crate::zeros::say_zeros;
use c_types::Typed;
use offer_drafts::{Draft, Thread, add_lines};
use std::alloc::{AllocError, Global};

/// Adds notes on an install of a text after the one that was in force, with the live threads after it: which old data became
/// zero though its name is still there, which threads are still in functions that changed, and which changed initialisers have
/// no effect. Each line begins with the mark.
pub fn add_install_notes(
    alloc: Global,
    mark: &[u8],
    old: &Typed,
    new: &Typed,
    threads: &[Thread<'_>],
    notes: &mut Vec<u8>,
) -> Result<(), AllocError>
    ensures { AreNotes mark.now notes.old.items → OnOk result (AreNotes mark.now notes.new.items) }
{
    let draft = install(alloc, old, new, threads)?;
    add_lines(notes, mark, draft.lines())
}

/// The lines of the notes.
fn install(
    alloc: Global,
    old: &Typed,
    new: &Typed,
    threads: &[Thread<'_>],
) -> Result<Draft, AllocError> {
    let mut draft = Draft::new(alloc);
    say_zeros(&mut draft, old, new);
    say_still(&mut draft, old, new, threads);
    say_initials(&mut draft, old, new);
    draft.done()
}
