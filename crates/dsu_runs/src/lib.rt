//! Schedules over any engine: which event comes next, what was made of a run, and how it ended.
//!
//! An [`Engine`] makes events, and its contracts speak of a setup and of the guard of its run that the engine is at
//! (`source_model`). [`solo`] chooses the events by the solo schedule, [`finish`] goes on so with a run on its way, and
//! [`replay`] makes the events of a journal. Each hands back a [`Ran`]: the engine, the events that were made, and why no more were. For each setup at whose start the engine is,
//! their contracts say that the events are a legal journal, which guard it comes to, and what was printed up to there. An
//! engine keeps its offers in a [`Book`]: which one is open or due, and what was answered.
//!
//! Read in this order: `engine` (the trait), `book` (the offers of a run), `live` (a run on its way), `ran` (what a schedule hands back), `running` (an
//! engine with the events made so far), `ahead` (an engine whose private work can be done elsewhere), `ending` (how a run ends as it is), `solo_run`, `replay_run`, `laws`.
#![tactic(auto)]

mod ahead;
mod book;
mod ending;
mod engine;
mod laws;
mod live;
mod ran;
mod replay_run;
mod running;
mod solo_run;

pub use ahead::Ahead;
pub use book::Book;
pub use engine::{Engine, Made, Stands, Turn, Undecided, Waiting};
pub use laws::rules_exist;
pub use live::Live;
pub use ran::{Ran, StopCause};
pub use replay_run::replay;
pub use solo_run::{finish, solo};
