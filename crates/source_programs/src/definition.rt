//! What a text defines.
use resolved_tree::{NodeId, ValueType, Word};

/// A parameter of a function, or a field of a struct.
#[derive(Clone, Copy)]
pub struct Binding {
    pub name: Word,
    pub declared: ValueType,
}

/// A name that is used.
#[derive(Clone, Copy)]
pub enum Name {
    Plain(Word),
    /// That of the struct with a tag.
    Struct(Word),
}

/// What is defined as a name. Where it's no function or no struct, there is nothing of these.
#[derive(Drop)]
pub struct Definition {
    /// The name; a struct's is `struct` with its tag after a blank.
    pub name: Word,
    /// Where its tree is among the definitions of the text.
    pub place: usize,
    pub parameters: Vec<Binding>,
    pub body: NodeId,
    pub result: ValueType,
    /// The fields of a struct.
    pub members: Vec<Binding>,
}
