//! The plain engine: the first engine below `dsu_runs`, made of a machine.
//!
//! [`PlainEngine`] is written over any machine (`run_machine`); [`PlainEngine::new`] is that of the source machine. It makes
//! each move by its machine, and hands what a move prints to its sink within that move. Beside the machine it keeps of each slot whether its thread is at a check-in, whether it is pinned,
//! and from where its row in force comes; it decides an offer by `offer_decision`, and installs what is
//! admitted. Its contract is that of the trait `Engine`: it is at the guard of the definitions that the
//! events lead to. Over the source machine it is slow, and takes memory at each move and at each decision.
//! Once a definition was misused no thread moves any more, and no open offer is decided.
//!
//! Read in this order: `seat` (what is kept of a slot), `seats` (the slots, and those in which a thread lives), `moves` (the
//! slots after a move), `seen` (the slots as a decision sees them), `state` (the state beside the output, its moves and check-ins), `decision` (the
//! decision on an offer), `engine` (the type, with its start over a machine), `start` (that over the source machine), `calls`
//! (what changes it), `events` (the trait), `ahead` (private work that is done elsewhere), `asked` (what is asked of an engine beside them: texts, frames and rows).
#![tactic(auto)]

mod ahead;
mod asked;
mod calls;
mod decision;
mod engine;
mod events;
mod moves;
mod prepared;
mod seat;
mod seats;
mod seen;
mod start;
mod state;

pub use asked::RowOf;
pub use engine::{NotStarted, PlainEngine};
