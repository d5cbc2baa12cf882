//! The notes where there is no patch.
ghost use Rattle.std.specs.Prelude.{OnOk};
ghost use Rattle.fault_notes.specs.Notes.{AreNotes};

use crate::fault::say_fault;
use crate::sorts::say_sorts;
use code_store::{MOST_CHECK_INS, MOST_FUNCTION_TOKENS};
use name_sets::MOST_NAMES;
use offer_drafts::{Draft, SourceText, add_lines};
use patch_build::MOST_VERSIONS;
use source_model::NotPatch;
use std::alloc::{AllocError, Global};

/// Adds notes on a text that is no patch of the one in force, which is that of a version: which limit is in the way, what the
/// name is in both texts, or the line of the transformer with what is wrong. Each line begins with the mark.
pub fn add_no_patch_notes(
    alloc: Global,
    mark: &[u8],
    version: u32,
    old: &SourceText<'_>,
    new: &SourceText<'_>,
    cause: &NotPatch,
    notes: &mut Vec<u8>,
) -> Result<(), AllocError>
    ensures { AreNotes mark.now notes.old.items → OnOk result (AreNotes mark.now notes.new.items) }
{
    let draft = no_patch(alloc, version, old, new, cause)?;
    add_lines(notes, mark, draft.lines())
}

/// The lines of the notes.
fn no_patch(
    alloc: Global,
    version: u32,
    old: &SourceText<'_>,
    new: &SourceText<'_>,
    cause: &NotPatch,
) -> Result<Draft, AllocError> {
    let mut draft = Draft::new(alloc);
    say_cause(&mut draft, version, old, new, cause);
    draft.done()
}

/// Says why there is no patch.
fn say_cause(
    draft: &mut Draft,
    version: u32,
    old: &SourceText<'_>,
    new: &SourceText<'_>,
    cause: &NotPatch,
) {
    match cause {
        NotPatch::Versions => {
            say_limit(
                draft,
                "a run has at most ",
                MOST_VERSIONS as usize,
                " versions",
            )
        }
        NotPatch::Names => {
            let words = "all versions and the text together have at most ";
            say_limit(draft, words, MOST_NAMES, " names");
        }
        NotPatch::Kind(name) => say_sorts(draft, name.as_str(), version, old, new),
        NotPatch::Transform(at) => say_fault(draft, old.typed, new.typed, new.bytes, *at),
        NotPatch::StoreFull => say_store(draft),
    }
}

/// Says a limit.
fn say_limit(draft: &mut Draft, words: &str, limit: usize, things: &str) {
    draft.say(words);
    draft.number(limit);
    draft.say(things);
    draft.end();
}

/// Says the limits of the store.
fn say_store(draft: &mut Draft) {
    draft.say("the functions of all versions together have at most ");
    draft.number(MOST_CHECK_INS);
    draft.say(" check-ins and ");
    draft.number(MOST_FUNCTION_TOKENS);
    draft.say(" tokens");
    draft.end();
}
