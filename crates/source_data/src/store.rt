//! What threads share: globals, objects, mutexes, and what was printed.
ghost use Rattle.std.specs.Prelude.{◌≡◌, count_by};

use local_evaluation::Value;
use resolved_tree::Word;
use source_programs::Globals;

/// A field of an object.
#[derive(Clone, Copy)]
pub struct Field {
    pub name: Word,
    pub value: Value,
}

/// An object, which lives or was ended.
#[derive(Drop)]
pub struct Object {
    /// The tag of its struct.
    pub tag: Word,
    pub fields: Vec<Field>,
    pub live: bool,
}

/// The objects in the order of their creation.
#[derive(Drop)]
pub struct Objects {
    pub all: Vec<Object>,
    /// How many live.
    pub live: usize,
    ghost counted: { live ≡ count_by (λ o. o.live) all.items },
}

/// A mutex that is held, with the slot of the thread that holds it.
#[derive(Clone, Copy)]
pub struct Held {
    pub mutex: Word,
    pub slot: usize,
}

/// What threads share. Of the mutexes the one that was taken last is the last.
#[derive(Drop)]
pub struct Store {
    pub globals: Globals,
    pub objects: Objects,
    /// How many objects may live at once.
    pub capacity: usize,
    pub holders: Vec<Held>,
    pub output: Vec<u8>,
}
