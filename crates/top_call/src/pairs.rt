//! What explains the answer that a text is no patch of another one.
ghost use Rattle.std.specs.Prelude.{IfOk, IfSome};
ghost use Rattle.fault_notes.specs.Notes.{AreNotes};
ghost use Rattle.noted_reports.specs.NotedReports.{fault_mark};

use dsu_cli::Job;
use dsu_io::Files;
use input_files::{Source as Read, source_of};
use noted_reports::FAULT_MARK;
use offer_drafts::SourceText;
use pair_notes::{admission_notes, change_notes};
use std::alloc::{AllocError, Global};

/// The notes of a job about two texts of which the newer is no patch of the older; of others, and of texts that can't be read
/// again, there are none.
pub(crate) fn notes_of_pair<F: Files>(alloc: Global, job: &Job, files: &mut F) -> Option<Vec<u8>>
    ensures { IfSome result (λ notes. AreNotes fault_mark notes.items) }
{
    match job {
        Job::Changes(old, new) | Job::Admits(old, new) => {
            notes_of_files(alloc, job, old.as_str(), new.as_str(), files)
        }
        Job::Run(_) | Job::Replay(_) | Job::Check(_) | Job::Effects(_) | Job::Gen(_, _, _) => None,
    }
}

/// Reads both texts, and has the notes of them.
fn notes_of_files<F: Files>(
    alloc: Global,
    job: &Job,
    old: &str,
    new: &str,
    files: &mut F,
) -> Option<Vec<u8>>
    ensures { IfSome result (λ notes. AreNotes fault_mark notes.items) }
{
    let Ok(older) = source_of(alloc, files, old) else {
        return None;
    };
    let Ok(newer) = source_of(alloc, files, new) else {
        return None;
    };
    let older = text_of(old, &older);
    let newer = text_of(new, &newer);
    match notes_of_texts(alloc, job, &older, &newer) {
        Ok(notes) => Some(notes),
        Err(_) => None,
    }
}

/// A text with the name of its file.
fn text_of<'a>(file: &'a str, read: &'a Read) -> SourceText<'a> {
    SourceText {
        file: file.as_bytes(),
        bytes: read.text.as_slice(),
        typed: &read.typed,
    }
}

/// The notes of two texts, by what the job asks of them.
fn notes_of_texts(
    alloc: Global,
    job: &Job,
    old: &SourceText<'_>,
    new: &SourceText<'_>,
) -> Result<Vec<u8>, AllocError>
    ensures { IfOk result (λ notes. AreNotes fault_mark notes.items) }
{
    match job {
        Job::Changes(_, _) => change_notes(alloc, FAULT_MARK, old, new),
        _ => admission_notes(alloc, FAULT_MARK, old, new),
    }
}
