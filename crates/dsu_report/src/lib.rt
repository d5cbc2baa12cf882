//! What the program writes on standard error: for each fault its one line, or the usage text, byte for
//! byte as [`specs/Faults.antt`] has it, and for a run that ended its report: what was answered to each
//! offer, as [`specs/Answers.antt`] has it, and how the run ended, as [`specs/Endings.antt`] has it. A writer
//! puts all of its text into the sink, or a shorter prefix of it where the sink failed, and takes no memory.
//! Beside it stands how a place in a text is counted by lines and columns.
//!
//! - [`place`]: a byte's place, by line and column
//! - [`fault`]: the faults and their words
//! - [`write`]: the lines
//! - [`answer`]: what was answered to offers
//! - [`ending`]: how a run ended
//! - [`wait`]: what threads wait for after a deadlock
//! - [`status`]: the statuses with which a program ends
#![tactic(auto)]

mod answer;
mod ending;
mod fault;
mod place;
mod status;
mod wait;
mod write;

pub use answer::write_answers;
pub use ending::{trap_word, write_ending};
pub use fault::{FaultLine, LineWord, ReportFault};
pub use place::{Place, line_and_column, place_of};
pub use status::ending_status;
pub use wait::{write_mutex_wait, write_thread_wait};
pub use write::{USAGE, write_fault};
