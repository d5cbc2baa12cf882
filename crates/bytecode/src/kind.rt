use c_ints::Kind;

/// What a word is: an integer of a kind, a handle, or a thread.
#[derive(Clone, Copy, Debug, PartialEq, Eq)]
pub enum ValueKind {
    /// An integer of that kind, in two's complement on 64 bits.
    Number(Kind),
    /// A handle of an object, 0 where it is null.
    Handle,
    /// A `thrd_t`, 0 where it names no thread.
    Thread,
}
