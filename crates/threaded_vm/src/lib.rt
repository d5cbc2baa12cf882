//! Runs by several workers: threads that move the threads of one program, with one turn of a lock for each event.
//!
//! The engine lies whole under a ruled lock (`pass_lock`), beside the events since the workers began, and each slot of the
//! program has a pass. The locked value's type keeps that the events so far are legal and prompt, that the engine is at the
//! guard to which they come, and that a slot's event is made by the slot's pass. A turn of a slot's pass ([`look`]) makes at
//! most one event: the check-in of the slot's thread, or its move. The private work up to the thread's next stop is left due,
//! copied, and done outside the lock, and so is the preparation of an offer that became due. [`run_workers`] shares the slots
//! among workers, each in a thread of its own, and hands the run back once it has ended.
//!
//! Read in this order: `notes` (what the value under the lock notes, and what a turn answers), `opening` (what the workers begin
//! with), `load` (the private work on a copy), `preparing` (the preparation of an offer), `shared` (the value under the lock), `held` (what the lock holds),
//! `looks` (a turn of a slot), `seat` (a slot in the hands of a worker), `crew` (what the workers share, and the work of one),
//! `workers` (a run by workers).
#![tactic(auto)]

mod crew;
mod held;
mod load;
mod looks;
mod notes;
mod opening;
mod preparing;
mod seat;
mod shared;
mod workers;

pub use held::Held;
pub use load::Load;
pub use looks::{Gate, Open, Place, look};
pub use notes::{Course, Look, Note, Noted};
pub use opening::Opening;
pub use preparing::Preparing;
pub use shared::Shared;
pub use workers::run_workers;
