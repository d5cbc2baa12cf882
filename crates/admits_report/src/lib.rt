//! The text of where a run of an older text could take a newer one: for each function what the row of its start answers, and
//! for each of its check-ins, in the order of the text, what the row of the check-in answers of a thread that isn't pinned; or
//! why the newer text is no patch of the older one.
//!
//! [`write_admission`] promises that what it writes is the text of `specs/AdmitsText.antt`: all of it, or a shorter prefix of it
//! where the sink failed, and nothing when out of memory. Each answer is that of the definitions' test over the row that the
//! definitions of effects give, and the cause is the first one that they have, so the text says what an offer would find. The
//! text is put together in memory and handed to the sink at once.
//!
//! Read in this order: `admission` (the rows of the older text, and what the newer one changes), `tested` (the test of a row),
//! `answers` (what the rows of functions and check-ins answer), `counts` (how many admit), `words` (names and effects), `lines`
//! (the lines of functions), `refused` (why there is no patch), `output` (the whole).
#![tactic(auto)]

mod admission;
mod answers;
mod counts;
mod lines;
mod output;
mod refused;
mod tested;
mod words;

pub use output::write_admission;
