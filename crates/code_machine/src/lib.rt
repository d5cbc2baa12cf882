//! Runs of compiled code, move by move: threads in slots, each with its frames, over what they share.
//!
//! A machine is made of the code of all texts that a run may install, and begins with the first one. Each step makes one move of one
//! thread, exactly as runs of code are defined: an enter, a trap or a stop, and the private instructions up to the next one. It says where
//! the thread can't move. An install puts another text in force: frames go on in the code of their versions, a call enters the function of
//! the text in force, and an object is brought to it before a stop uses a field. All memory is taken when the machine is made, but for what
//! installs bring, if what is printed is taken after each step.
//!
//! The private instructions that follow a move can be left for later. A thread that has some to execute is seen as the thread that has
//! executed them: neither leaving them nor executing them changes what a machine is. Only what such a thread does next can't be asked.
//! They can also be executed on a copy ([`Work`]), in another thread; what came of it is taken where the frame is still as it was copied.
//!
//! Read `specs/Seen` (a machine as the definitions have it), `specs/Versions` (of which texts a run is), `specs/Steps` (what a step comes to),
//! `specs/Leading` (when it leads to a check-in), `specs/Enough` and `specs/Used` (when it is never out of memory), `specs/Kept` and
//! `specs/Keeping` (what always holds); then `running` (a slot with its thread), `state` and `machine` (what is kept), `stops` and
//! `thread_stops` (what is done at stops), `moves` (a move), `calls` (what others call), `settling` (private work),
//! `work` and `copies` (private work on a copy) and `queries`.
#![tactic(auto)]

mod calls;
mod copies;
mod machine;
mod moves;
mod queries;
mod running;
mod settling;
mod state;
mod stops;
mod thread_stops;
mod work;

pub use machine::CodeMachine;
pub use moves::CodeStep;
pub use queries::{CodeWait, FramePlace};
pub use state::Finish;
pub use work::Work;
