//! What the threads of compiled code share, in words: globals and arrays, objects, mutexes; and the stops that read or change it.
//!
//! A stop has the numbers of what it names, so nothing is looked up when it is made. It takes its words from the stack of a frame and
//! leaves its own there, exactly as the definitions of runs of code say. It takes no memory but for the bytes of a print, and none for
//! them where there is room for as many as the print writes at most, whatever its arguments.
//!
//! What an install of a newer text changes, and the object that a stop brings to a newer layout, are put in place by calls that can't fail.
//!
//! Read `specs/Stacks`, `specs/Resolved`, `specs/Lengths` and `specs/Performing`; then [`stop`] (what is asked and answered), [`shared`]
//! (what is kept, and which stop does what), `cells`, `objects`, `mutexes` and `print` (what each does), over `stack` (the words of a
//! frame), and `changes` (what is put in place).
#![tactic(auto)]

mod cells;
mod changes;
mod mutexes;
mod objects;
mod print;
mod shared;
mod stack;
mod stop;

pub use print::{MOST_PRINTED, longest_print};
pub use shared::WordData;
pub use stop::{Did, SharedStop, Stack};
