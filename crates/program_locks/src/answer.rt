//! What a call on a mutex comes to.
use run_types::TrapKind;

/// What a call on a mutex comes to.
#[derive(Clone, Copy, Debug, PartialEq, Eq)]
pub enum LockAnswer {
    /// The call is made.
    Done,
    /// The thread in that slot holds the mutex, so the caller waits.
    Waits(u8),
    /// The caller traps.
    Trap(TrapKind),
}
