ghost use Rattle.std.specs.Prelude.{◌≡◌};

use c_ints::ArithTrap;

/// Why a thread is stopped in the middle of its work. The whole run ends with it.
#[derive(Clone, Copy, Debug, PartialEq, Eq)]
pub enum TrapKind {
    /// A signed result that its type can't hold (C11 6.5 paragraph 5).
    Overflow,
    /// A division by zero (C11 6.5.5 paragraph 5).
    Divide,
    /// A shift by a count that the type doesn't have, or of a negative value to the left (C11 6.5.7).
    Shift,
    /// A field of the null handle.
    Null,
    /// A field or the end of an object that was ended.
    Stale,
    /// An index outside its array.
    Index,
    /// A call where the thread has as many frames as it may have.
    Depth,
    /// A lock of a mutex that the thread holds.
    Relock,
    /// An unlock of a mutex that the thread doesn't hold.
    Unlock,
    /// An initialisation of a mutex that is held.
    MutexHeld,
    /// A join of a handle that names no thread, or one that was joined.
    Join,
}

impl From<ArithTrap> for TrapKind {
    ghost use Rattle.run_types.specs.Trap.{trap_of};

    ghost from_gives = { λ trap kind. kind ≡ trap_of trap };

    fn from(trap: ArithTrap) -> TrapKind {
        match trap {
            ArithTrap::Overflow => TrapKind::Overflow,
            ArithTrap::Divide => TrapKind::Divide,
            ArithTrap::Shift => TrapKind::Shift,
        }
    }
}
