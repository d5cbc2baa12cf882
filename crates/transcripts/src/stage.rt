//! The files of a call, and what fails in it.

use crate::fault::Fault;
use dsu_io::{MemoryFiles, MemorySink};
use itoa::Buffer;
use std::alloc::{AllocError, Global};

/// How many bytes an output has room for, unless a line says otherwise.
const ROOM: usize = 100_000;

/// The mark in whose place a copy has its number.
const NUMBER_MARK: u8 = b'@';

/// What the next call finds.
#[derive(Drop)]
pub(crate) struct Stage {
    /// The newest first, which is the one that is read of those with one name.
    files: Vec<(String, Vec<u8>)>,
    /// The reads, the writes on standard output, and those on standard error that fail, by number.
    reads: Vec<u64>,
    prints: Vec<u64>,
    reports: Vec<u64>,
    /// How many bytes standard output has room for.
    room: usize,
}

impl Stage {
    /// Without files, and nothing fails.
    pub(crate) fn new(alloc: Global) -> Stage {
        Stage {
            files: Vec::new(alloc),
            reads: Vec::new(alloc),
            prints: Vec::new(alloc),
            reports: Vec::new(alloc),
            room: ROOM,
        }
    }

    /// Takes the files away.
    pub(crate) fn clear(&mut self) {
        self.files.clear();
    }

    /// From now on nothing fails.
    pub(crate) fn calm(&mut self) {
        self.reads.clear();
        self.prints.clear();
        self.reports.clear();
        self.room = ROOM;
    }

    /// Has the read or the write of this number fail in the next call, or gives standard output room for so many bytes.
    pub(crate) fn hinder(&mut self, what: &str, number: usize) -> Result<(), Fault> {
        match what {
            "reads" => self.reads.push(number as u64)?,
            "prints" => self.prints.push(number as u64)?,
            "reports" => self.reports.push(number as u64)?,
            "room" => self.room = number,
            _ => return Err(Fault::Line),
        }
        Ok(())
    }

    /// Makes a file of this name with this text.
    pub(crate) fn set(
        &mut self,
        alloc: Global,
        name: &str,
        text: Vec<u8>,
    ) -> Result<(), AllocError> {
        let name = String::from_str(alloc, name)?;
        self.files.insert(0, (name, text))?;
        Ok(())
    }

    /// Adds a line to the newest file.
    pub(crate) fn add_line(&mut self, line: &str) -> Result<(), Fault> {
        if self.files.is_empty() {
            return Err(Fault::File);
        }
        let (name, text) = self.files.remove(0);
        let text = with_line(text, line)?;
        self.files.insert(0, (name, text))?;
        Ok(())
    }

    /// The text of a file.
    fn text_of(&self, name: &str) -> Option<&[u8]> {
        for file in &self.files {
            if file.0.as_str() == name {
                return Some(file.1.as_slice());
            }
        }
        None
    }

    /// The text of a file with so many copies of another's after it. A file that isn't there is empty.
    pub(crate) fn with_copies(
        &self,
        alloc: Global,
        name: &str,
        times: usize,
        other: &str,
    ) -> Result<Vec<u8>, Fault> {
        let Some(piece) = self.text_of(other) else {
            return Err(Fault::File);
        };
        let mut text = Vec::new(alloc);
        if let Some(first) = self.text_of(name) {
            text.extend_from_slice(first)?;
        }
        for number in 0..times {
            add_copy(piece, number, &mut text)?;
        }
        Ok(text)
    }

    /// The text of a file with blanks after it, so that it has so many bytes.
    pub(crate) fn padded(&self, alloc: Global, name: &str, bytes: usize) -> Result<Vec<u8>, Fault> {
        let Some(text) = self.text_of(name) else {
            return Err(Fault::File);
        };
        let mut text = text.to_vec(alloc)?;
        text.resize(bytes, b' ')?;
        Ok(text)
    }

    /// The files of the next call.
    pub(crate) fn disk(&self, alloc: Global) -> Result<MemoryFiles, AllocError> {
        let files = self.files.clone()?;
        Ok(MemoryFiles::of(alloc, files, self.reads.clone()?))
    }

    /// Standard output of the next call.
    pub(crate) fn output(&self, alloc: Global) -> Result<MemorySink, AllocError> {
        MemorySink::with_room(alloc, self.room, self.prints.clone()?)
    }

    /// Standard error of the next call.
    pub(crate) fn errors(&self, alloc: Global) -> Result<MemorySink, AllocError> {
        MemorySink::with_room(alloc, ROOM, self.reports.clone()?)
    }
}

/// A text with one more line.
fn with_line(text: Vec<u8>, line: &str) -> Result<Vec<u8>, AllocError> {
    let mut text = text;
    text.extend_from_slice(line.as_bytes())?;
    text.push(b'\n')?;
    Ok(text)
}

/// Adds a copy of a text, with its number in the place of each mark.
fn add_copy(piece: &[u8], number: usize, text: &mut Vec<u8>) -> Result<(), AllocError> {
    let mut digits = Buffer::new();
    let digits = digits.format(number).as_bytes();
    for byte in piece {
        if *byte == NUMBER_MARK {
            text.extend_from_slice(digits)?;
        } else {
            text.push(*byte)?;
        }
    }
    Ok(())
}
