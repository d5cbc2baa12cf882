//! Whole runs with offers, computed by the definitions of the source machine over the rows of the definitions of effects.
//!
//! It is examples as laws: each holds for all rules whose rows are those of the effects. `specs/PinnedTexts` has a small text
//! and two newer ones, `specs/PinnedRun` a run of them with what it prints and answers; the calls of `laws` carry them.
//!
//! The proof reads in this order: a test by which a row has all names of a check-in's row (`proofs/RowTests`), names that are
//! used further on (`Straight`), the rows at the decisions (`PinnedRows`); that a journal depends on the rows in force at its
//! decisions alone (`RowsInForce`), so that the run can be computed over plain rows (`PinnedPlay`, `PinnedSchedule`).
#![tactic(auto)]

mod laws;

pub use laws::transaction_keeps_its_version;
