//! Lines that are put together.
use itoa::Buffer;
use std::alloc::{AllocError, Global};
use std::mem;

/// Lines that have ended, and the one that is being put together. A piece for which there is no memory is left out, and then no
/// draft is done: so lines are put together without a thought of memory, which is asked about once.
#[derive(Drop)]
pub struct Draft {
    alloc: Global,
    ended: Vec<Vec<u8>>,
    line: Vec<u8>,
    /// Whether a piece or a line was left out.
    is_cut: bool,
}

impl Draft {
    /// No lines. It takes no memory yet.
    pub fn new(alloc: Global) -> Draft {
        Draft {
            alloc,
            ended: Vec::new(alloc),
            line: Vec::new(alloc),
            is_cut: false,
        }
    }

    /// What its memory comes from.
    pub fn alloc(&self) -> Global {
        self.alloc
    }

    /// Leaves a piece out.
    pub fn cut(&mut self) {
        self.is_cut = true;
    }

    /// Adds a text to the line.
    pub fn say(&mut self, text: &str) {
        self.show(text.as_bytes());
    }

    /// Adds bytes to the line.
    pub fn show(&mut self, bytes: &[u8]) {
        if self.line.extend_from_slice(bytes).is_err() {
            self.cut();
        }
    }

    /// Adds a number to the line.
    pub fn number(&mut self, number: usize) {
        let mut digits = Buffer::new();
        self.say(digits.format(number));
    }

    /// Ends the line.
    pub fn end(&mut self) {
        let line = mem::replace(&mut self.line, Vec::new(self.alloc));
        if self.ended.push(line).is_err() {
            self.cut();
        }
    }

    /// The draft, unless something was left out.
    pub fn done(self) -> Result<Draft, AllocError> {
        if self.is_cut {
            Err(AllocError)
        } else {
            Ok(self)
        }
    }

    /// The lines that have ended.
    pub fn lines(&self) -> &[Vec<u8>] {
        self.ended.as_slice()
    }
}
