//! Handles of objects.
ghost use Rattle.std.specs.Prelude.{◌≡◌, ◌<◌, ◌^◌};
ghost use Rattle.object_store.specs.Handles.{handle_of, creation_of, slot_of};

use std::marker::Model;

/// How many slots a handle can name.
const SLOTS: u64 = 1 << 32;

/// The handle of an object: the number of its creation in the high 32 bits, counted from 1, and its slot in the low ones.
/// So no object has the handle 0, which is null. Contracts see the word.
#[derive(Clone, Copy, Debug, PartialEq, Eq)]
pub struct Handle {
    word: u64,
}

impl Model for Handle {
    ghost use Rattle.std.specs.Prelude.{ℕ};

    ghost Value = { ℕ };

    ghost view = { λ handle. handle.word };

    ghost inverse = { λ word. record { word = word } };
}

impl Handle {
    /// The handle with this word. It needn't be one of an object.
    pub fn new(word: u64) -> Handle
        ensures { result ≡ word }
    {
        Handle { word }
    }

    /// The word.
    pub fn word(self) -> u64
        ensures { result ≡ self }
    {
        self.word
    }

    /// The handle of the object that was created as the one of this number, counted from 1, and has this slot.
    pub(crate) fn of(creation: u32, slot: u32) -> Handle
        ensures { result ≡ handle_of creation slot }
    {
        Handle {
            word: creation as u64 * SLOTS + slot as u64,
        }
    }

    pub(crate) fn creation(self) -> u32
        ensures { result ≡ creation_of self }
    {
        (self.word / SLOTS) as u32
    }

    pub(crate) fn slot(self) -> usize
        ensures value { result ≡ slot_of self }
        ensures bound { result < 2 ^ 32 }
    {
        (self.word % SLOTS) as usize
    }
}
