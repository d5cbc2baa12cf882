//! Faults of the lines of cases.

use std::alloc::{AllocError, AllocFailed};

/// What is wrong in a line of a file of cases.
#[derive(Clone, Copy)]
pub(crate) enum Fault {
    /// It is none of the lines that there are.
    Line,
    /// It names a file that isn't there.
    File,
    /// It has no number where one is expected.
    Number,
    /// Out of memory.
    Memory,
}

impl Fault {
    /// What standard error says of it.
    pub(crate) fn words(self) -> &'static str {
        match self {
            Fault::Line => "no line of cases",
            Fault::File => "no such file",
            Fault::Number => "no number",
            Fault::Memory => "out of memory",
        }
    }
}

impl From<AllocError> for Fault {
    fn from(_: AllocError) -> Fault {
        Fault::Memory
    }
}

impl<T: Drop> From<AllocFailed<T>> for Fault {
    fn from(_: AllocFailed<T>) -> Fault {
        Fault::Memory
    }
}
