//! What is known of a frame at a place of its code.
ghost use Rattle.std.specs.Prelude.{◌≡◌, IfOk};
ghost use Rattle.code_verify.specs.Seen.{shape_of};

use crate::words::copy_words;
use code_kinds::WordKind;
use skeletons::CheckInKind;
use std::alloc::{AllocError, Global};

/// A check-in that comes next, with its number.
#[derive(Clone, Copy)]
pub(crate) struct Due {
    pub kind: CheckInKind,
    pub number: u64,
}

/// What is known of a frame at a place of its code.
#[derive(Drop)]
pub(crate) struct Shape {
    /// The words on the stack, the newest last.
    pub stack: Vec<WordKind>,
    /// Those of the variables in scope, the one declared first is the first.
    pub variables: Vec<WordKind>,
    /// How many transactions are open.
    pub transactions: u64,
    pub due: Option<Due>,
}

impl Shape {
    /// A copy.
    pub(crate) fn copy(&self, alloc: Global) -> Result<Shape, AllocError>
        ensures { IfOk result (λ s. shape_of s ≡ shape_of self.now) }
    {
        Ok(Shape {
            stack: copy_words(alloc, self.stack.as_slice())?,
            variables: copy_words(alloc, self.variables.as_slice())?,
            transactions: self.transactions,
            due: self.due,
        })
    }
}
