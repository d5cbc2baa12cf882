//! What explains the report of a run that ended: its texts are read once more, and its events are replayed.
ghost use Rattle.std.specs.Prelude.{All, IfOk, IfSome};
ghost use Rattle.fault_notes.specs.Notes.{AreNotes};
ghost use Rattle.noted_reports.specs.NotedReports.{run_mark};

use c_types::Typed;
use dsu_cli::{Job, Offer};
use dsu_io::{Files, List};
use input_files::{Source as Read, source_of};
use run_notes::run_notes;
use run_types::{Ending, Event};
use std::alloc::{AllocError, Global};
use thread_notes::Source;

/// The texts of a run, as they are read once more: the first one, and those that are offered.
#[derive(Drop)]
struct Texts {
    first: Typed,
    offered: Vec<Typed>,
    /// How many lines the program must have printed before each of them is offered.
    lines: Vec<u32>,
    /// The bytes of all of them, the first one first.
    bytes: Vec<List<u8>>,
}

/// The notes of a run by its events: those of each offer, in the order of the words, and then those of the lines of its ending. A
/// run whose texts can't be read again has none, nor has one whose notes want more memory than there is.
pub(crate) fn notes_of_run<F: Files>(
    alloc: Global,
    job: &Job,
    files: &mut F,
    history: &[Event],
    ending: Ending,
) -> Option<Vec<Vec<u8>>>
    ensures { IfSome result (λ all. All (λ notes. AreNotes run_mark notes.items) all.items) }
{
    match job {
        Job::Run(job) => {
            let offers = job.offers.as_slice();
            let texts = texts_of(alloc, job.file.as_str(), offers, files)?;
            notes_of_texts(
                alloc,
                texts,
                job.file.as_str(),
                offers,
                job.objects,
                history,
                ending,
            )
        }
        Job::Replay(job) => {
            let offers = job.offers.as_slice();
            let texts = texts_of(alloc, job.file.as_str(), offers, files)?;
            notes_of_texts(
                alloc,
                texts,
                job.file.as_str(),
                offers,
                job.objects,
                history,
                ending,
            )
        }
        Job::Check(_)
        | Job::Effects(_)
        | Job::Changes(_, _)
        | Job::Admits(_, _)
        | Job::Gen(_, _, _) => None,
    }
}

/// Reads the texts of a run.
fn texts_of<F: Files>(alloc: Global, file: &str, offers: &[Offer], files: &mut F) -> Option<Texts> {
    let Ok(Read { text, typed }) = source_of(alloc, files, file) else {
        return None;
    };
    let mut bytes = Vec::new(alloc);
    if bytes.push(List::of(text)).is_err() {
        return None;
    }
    let mut texts = Texts {
        first: typed,
        offered: Vec::new(alloc),
        lines: Vec::new(alloc),
        bytes,
    };
    match read_offers(alloc, offers, files, &mut texts) {
        Some(()) => Some(texts),
        None => None,
    }
}

/// Reads the texts that are offered.
fn read_offers<F: Files>(
    alloc: Global,
    offers: &[Offer],
    files: &mut F,
    texts: &mut Texts,
) -> Option<()> {
    for offer in offers {
        let Ok(read) = source_of(alloc, files, offer.file.as_str()) else {
            return None;
        };
        if add_offer(texts, read, offer.lines).is_err() {
            return None;
        }
    }
    Some(())
}

/// Adds a text that is offered.
fn add_offer(texts: &mut Texts, read: Read, lines: u32) -> Result<(), AllocError> {
    let Read { text, typed } = read;
    texts.bytes.push(List::of(text))?;
    texts.offered.push(typed)?;
    texts.lines.push(lines)?;
    Ok(())
}

/// The notes of a run of some texts.
fn notes_of_texts(
    alloc: Global,
    texts: Texts,
    file: &str,
    offers: &[Offer],
    objects: u32,
    history: &[Event],
    ending: Ending,
) -> Option<Vec<Vec<u8>>>
    ensures { IfSome result (λ all. All (λ notes. AreNotes run_mark notes.items) all.items) }
{
    let Texts {
        first,
        offered,
        lines,
        bytes,
    } = texts;
    let Ok(sources) = sources_of(alloc, file, offers, &bytes) else {
        return None;
    };
    match run_notes(
        alloc, first, offered, lines, objects, &sources, history, ending,
    ) {
        Ok(notes) => Some(notes),
        Err(_) => None,
    }
}

/// The file of each text, by its number.
fn sources_of<'a>(
    alloc: Global,
    file: &'a str,
    offers: &'a [Offer],
    bytes: &'a [List<u8>],
) -> Result<Vec<Source<'a>>, AllocError> {
    let mut sources = Vec::new(alloc);
    for number in 0..bytes.len() {
        sources.push(Source {
            file: file_of(file, offers, number),
            bytes: bytes[number].as_slice(),
        })?;
    }
    Ok(sources)
}

/// The name of the file of a text.
fn file_of<'a>(file: &'a str, offers: &'a [Offer], number: usize) -> &'a str {
    if number == 0 {
        return file;
    }
    match offers.get(number - 1) {
        Some(offer) => offer.file.as_str(),
        None => file,
    }
}
