//! Stops on shared data, the stack that they use, and what they come to.
use name_sets::NameId;
use resolved_tree::Word;
use run_types::TrapKind;

/// The stack of a frame in a row of words: so many words from a place on, the newest last.
#[derive(Clone, Copy, Debug, PartialEq, Eq)]
pub struct Stack {
    /// The place of the oldest word, or of the first one that is put there.
    pub low: usize,
    /// How many words are on it.
    pub height: usize,
}

/// A stop that changes no other thread, with the numbers of what it names.
#[derive(Clone, Copy)]
pub enum SharedStop {
    /// Puts the word of the global with the number on the stack.
    ReadGlobal(u32),
    /// Changes a global to the newest word, which stays.
    WriteGlobal(u32),
    /// Takes an index, and puts that element of the array with the number on the stack.
    ReadElement(u32),
    /// Changes an element to the newest word, which stays; the index under it goes.
    WriteElement(u32),
    /// Takes a handle, and puts the field with that place in its struct on the stack.
    ReadField(u32),
    /// Changes a field to the newest word, which stays; the handle under it goes.
    WriteField(u32),
    /// Creates an object of the struct with that tag, and puts its handle on the stack; null where there is no room.
    New(NameId),
    /// Takes a handle, ends its object, and puts the word 0 on the stack.
    Free,
    /// `printf` (7.21.6.3) of a format with so many words, which it takes; it puts the word 0 on the stack.
    Print(Word, usize),
    /// `mtx_init` (7.26.4.2) of the mutex with the number. As the next two, it puts the word 0 on the stack.
    InitMutex(u32),
    /// `mtx_lock` (7.26.4.3).
    Lock(u32),
    /// `mtx_unlock` (7.26.4.6).
    Unlock(u32),
}

/// What a stop came to.
#[derive(Clone, Copy, Debug, PartialEq, Eq)]
pub enum Did {
    /// The frame goes on, with so many words on its stack.
    On(usize),
    /// The stop traps.
    Trap(TrapKind),
    /// The thread in that slot holds the mutex, so nothing was done.
    Waits(u8),
}
