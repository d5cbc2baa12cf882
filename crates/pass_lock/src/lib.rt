//! A lock whose rule is a theorem: threads take turns with one value, and the value's history tells who did what.
//! What a pass is given begins with all that it saw before, and the entries that name it are its own, each once and in order.
//! When the lock is closed, the same holds of every pass.
//!
//! The modules, in reading order:
//! - `notes`: the entries of a history, and what one may tell of offers and threads
//! - `told`: the trait of a value that can be locked
//! - `view`: what a seat of the lock's table knows, for proofs alone
//! - `rule`: the rule of the table, and what each step tells
//! - `pass`: passes, turns and the fault of memory
//! - `seats`: functions over the seats of the table
//! - `lock`: the lock
#![tactic(auto)]

mod lock;
mod notes;
mod pass;
mod rule;
mod seats;
mod told;
mod view;

pub use lock::PassLock;
pub use notes::{Entry, Notice, Phase};
pub use pass::{LockFault, Pass, Turn};
pub use told::Told;
pub use view::{Change, CheckIn, Claim, Deed, Held, Open, Stage, View};
