//! The frames of a thread of compiled code, in one row of words: calls in progress, each with a block of words for its variables
//! and its stack.
//!
//! All memory is reserved when the row is made: a block for each frame that a thread may have, as long as the highest stack of its
//! functions wants it. No block is touched before calls come near it. Each operation is exact on the frames as the definitions of
//! runs of code have them: a function is entered with the words of its arguments, a frame goes on to its next stop, waits after a
//! call, and returns a word to the one that called. What a frame executes can also be done on a copy of its words.
//!
//! Read `specs/Blocks` (where a frame's words are), `specs/Seen` (the frames as those of code) and `specs/Changes`; then [`frame`],
//! [`frames`] (what is kept), [`calls`] (what is done with it), [`copies`] (the words of a frame on a row of their own) and [`laws`].
#![tactic(auto)]

mod blocks;
mod calls;
mod copies;
mod frame;
mod frames;
mod laws;

pub use copies::FRAME_WORDS;
pub use frame::Frame;
pub use frames::{Frames, MOST_FRAMES};
pub use laws::stack_changes_alone;
