//! The steps by which the tables came about: each table that was entered and not left, and each
//! declaration in it, in order.

/// A declaration.
#[derive(Drop)]
pub(crate) struct Declaration<T> {
    /// The place of its name among the names.
    pub name: usize,
    /// What the name stands for.
    pub value: T,
    /// The place of the step with the declaration that it hides.
    pub hides: Option<usize>,
}

/// A step.
#[derive(Drop)]
pub(crate) enum Step<T> {
    /// A table was entered. It keeps the place of the first step within the table around it.
    Enter(usize),
    /// A name was declared.
    Declare(Declaration<T>),
}
