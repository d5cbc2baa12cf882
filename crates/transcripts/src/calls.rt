//! Calls of the program over files and outputs in memory.

use crate::stage::Stage;
use dsu_io::{MemorySink, Text};
use job_answers::Outcome;
use std::alloc::{AllocError, Global};
use top_call::dsu_main;

/// What a call came to, with what is on standard error.
#[derive(Drop)]
pub(crate) struct Seen {
    pub(crate) outcome: Outcome<MemorySink>,
    pub(crate) err: MemorySink,
}

/// The words of a command line, which is cut at its blanks.
pub(crate) fn words_of(alloc: Global, line: &str) -> Result<Vec<Text>, AllocError> {
    let mut words = Vec::new(alloc);
    for word in line.split_whitespace() {
        words.push(Text::of(alloc, word)?)?;
    }
    Ok(words)
}

/// Makes a call over the files of a stage.
pub(crate) fn see(alloc: Global, words: &[Text], stage: &Stage) -> Result<Seen, AllocError> {
    let mut files = stage.disk(alloc)?;
    let out = stage.output(alloc)?;
    let mut err = stage.errors(alloc)?;
    let outcome = dsu_main(alloc, words, &mut files, out, &mut err);
    drop(files);
    Ok(Seen { outcome, err })
}
