/// What a word is, where the kind of an integer doesn't matter.
#[derive(Clone, Copy, Debug, PartialEq, Eq)]
pub enum WordKind {
    /// An integer of any kind.
    Integer,
    /// A handle of an object, or null.
    Handle,
    /// A `thrd_t`, or none.
    Thread,
}
