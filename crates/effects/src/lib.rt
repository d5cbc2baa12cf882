//! What threads may use: effects of functions and points, and the rows of check-ins, as definitions.
//!
//! A store is a list of bodies, those of all versions so far. The effects are those of contextual effects (Neamtiu, Hicks,
//! Foster, Pratikakis, POPL 2008), over the outermost transaction in progress; the concrete effect and rows are this
//! project's.
//!
//! Read the files of `specs/` in this order: `Sites` (the points of a store), `Standard` (what a function may use),
//! `Nested` (where a thread may be in a transaction), `Contextual` (prior and future effect of a point), `Concrete` (what
//! active code uses directly), `Rows` (what a check-in covers, and its row), `GrowthLaws` and `LeastLaws`; the calls of
//! `laws` carry these. `proofs/Examples` has the effects of a small text at each of its check-ins, `proofs/RowExamples` some
//! of its rows.
#![tactic(auto)]

mod laws;

pub use laws::{each_mark_has_one_row, effects_are_least, effects_end, effects_grow};
