//! The source machine, run as its definitions say: trees are walked and names looked up, and no code is made.
//!
//! [`SourceRun`] is a run of the first of some texts, move by move; the others may be installed while it runs. Its contracts
//! are the definitions of `c_semantics` and `source_model`: after any steps it is the run over the moves that were made, with
//! what was printed and how it stands. Of each thread it says where its frames are, what its next move uses and what it waits
//! for. It keeps no records of transactions. What a name means is found in one look, so that a move costs no more where a text
//! defines more or where more objects were made.
//!
//! The texts, with the resolved trees of all their functions in one table, are `source_programs`. A thread's private work is
//! done ahead of its turn, up to its next stop (`local_evaluation`), so that a move is that stop alone.
//!
//! Read in this order: `thread` (threads), `stack` (arguments, and the frames that wait), `machine` (the move of a thread),
//! `thread_stops` (stops that change threads), `follow` (an install); `start`, `run` (the public calls), `can_move`, `waits` and
//! `queries` (what is asked of a run). Stops that read or change what threads share are `source_data`, the data after an install
//! `source_install`.
#![tactic(auto)]

mod can_move;
mod follow;
mod machine;
mod queries;
mod run;
mod stack;
mod start;
mod thread;
mod thread_stops;
mod waits;

pub use can_move::SourceState;
pub use queries::FrameAt;
pub use run::{SourceMove, SourceRun, Stepped};
pub use waits::SourceWait;
