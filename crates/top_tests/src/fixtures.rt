//! The sinks and trees that several tests need.
//!
//! What owns a tree is dropped by a call of `drop`: at the end of a scope its whole destructor is part of the proof.
ghost use Rattle.std.specs.Prelude.{IfSome};
ghost use Rattle.c_front.specs.Accepted.{Accepted};

use c_front::read_text;
use c_types::Typed;
use dsu_io::MemorySink;
use std::alloc::{AllocError, Global};

/// A sink with room for so many bytes, whose calls with these numbers fail.
pub fn sink_of(alloc: Global, room: usize, failing: &[u64]) -> Result<MemorySink, AllocError> {
    MemorySink::with_room(alloc, room, failing.to_vec(alloc)?)
}

/// The tree of a text, which has no fault.
pub fn typed_of(alloc: Global, text: &str) -> Option<Typed>
    ensures { IfSome result (λ typed. Accepted text.now typed) }
{
    match read_text(alloc, text.as_bytes()) {
        Ok(typed) => Some(typed),
        Err(_) => None,
    }
}
