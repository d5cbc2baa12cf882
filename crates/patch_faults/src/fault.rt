/// What is wrong with a transformer of a newer text. A place is a byte of that text, counted from 0.
#[derive(Clone, Copy, Debug, PartialEq, Eq)]
pub enum TransformFault {
    /// Its name is neither a struct whose layout changes nor a global whose type changes and that is scalar in both texts. The
    /// place is the transformer's first token.
    NotChanged(usize),
    /// `old.f` names no field of the old layout. The place is the field's name.
    OldField(usize),
    /// The types don't fit. The place is the first token of the expression whose type is wrong.
    Wrong(usize),
    /// There was no memory.
    Memory,
}
