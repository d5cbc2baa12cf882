//! A message that is put together.
use itoa::Buffer;
use std::alloc::{AllocError, Global};

/// A message: pieces of text, one after the other. A piece for which there is no memory is left out, and then no message is done:
/// so it is put together without a thought of memory, which is asked about once.
#[derive(Drop)]
pub struct Draft {
    alloc: Global,
    text: Vec<u8>,
    /// Whether a piece was left out.
    is_cut: bool,
}

/// Of a word of a text a message shows at most so many bytes.
const MOST_SHOWN: usize = 40;

impl Draft {
    /// An empty message. It takes no memory yet.
    pub fn new(alloc: Global) -> Draft {
        Draft {
            alloc,
            text: Vec::new(alloc),
            is_cut: false,
        }
    }

    /// What its memory comes from.
    pub fn alloc(&self) -> Global {
        self.alloc
    }

    /// The message of one piece.
    pub fn of(alloc: Global, text: &str) -> Result<Draft, AllocError> {
        let mut draft = Draft::new(alloc);
        draft.say(text);
        draft.done()
    }

    /// The message, unless a piece was left out.
    pub fn done(self) -> Result<Draft, AllocError> {
        if self.is_cut {
            Err(AllocError)
        } else {
            Ok(self)
        }
    }

    /// Leaves a piece out.
    pub(crate) fn cut(&mut self) {
        self.is_cut = true;
    }

    /// Adds bytes.
    fn add(&mut self, bytes: &[u8]) {
        if self.text.extend_from_slice(bytes).is_err() {
            self.cut();
        }
    }

    /// Adds a text.
    pub fn say(&mut self, text: &str) {
        self.add(text.as_bytes());
    }

    /// Adds a number.
    pub fn number(&mut self, number: usize) {
        let mut digits = Buffer::new();
        self.say(digits.format(number));
    }

    /// Adds a number of things, whose name is that of one of them.
    pub fn count(&mut self, number: usize, one: &str) {
        self.number(number);
        self.say(" ");
        self.say(one);
        if number != 1 {
            self.say("s");
        }
    }

    /// Adds a name of a text; of a long one the first bytes.
    pub fn name(&mut self, name: &str) {
        let bytes = name.as_bytes();
        self.add(first_bytes(bytes));
        if bytes.len() > MOST_SHOWN {
            self.say("..");
        }
    }

    /// Adds a word of a text between quotes; of a long one the first bytes.
    pub fn word(&mut self, word: &str) {
        self.say("'");
        self.name(word);
        self.say("'");
    }

    /// Adds a printable byte between quotes.
    pub fn byte(&mut self, byte: u8) {
        self.add(&[b'\'', byte, b'\'']);
    }

    /// Its bytes.
    pub fn as_slice(&self) -> &[u8] {
        self.text.as_slice()
    }
}

/// The bytes of a word that a message shows.
fn first_bytes(bytes: &[u8]) -> &[u8] {
    let shown = bytes.len().min(MOST_SHOWN);
    &bytes[..shown]
}
