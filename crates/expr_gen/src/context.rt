use c_definitions::Known;
use resolved_tree::{Trees, ValueType, Word};

/// A variable of a function, with the type that it was declared with.
#[derive(Clone, Copy)]
pub struct Variable {
    pub declared: ValueType,
    pub name: Word,
}

/// What the code of an expression depends on besides its tree: the table of trees, the definitions of the text, and the
/// variables in scope, the oldest first, each with the number of its place.
#[derive(Clone, Copy)]
pub struct Context<'a> {
    pub trees: &'a Trees,
    pub known: &'a Known<'a>,
    pub variables: &'a [Variable],
}
