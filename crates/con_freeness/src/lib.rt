//! When a patch is admitted: the definitions, the test in code, and what it answers. When a patch is offered, each thread that
//! lives has a row of three sets of names in force: its prior effect, what its outermost transaction in progress may have used
//! so far; its future effect, what that transaction may still use, callees included; and its concrete effect, what the
//! code still to run in its active frames may use directly. The patch has the names that it changes and, among these,
//! those whose interface it changes. `specs/Rows.antt` is the test of rows, with names as texts, and `specs/Verdicts.antt` what
//! a refusal says; the calls of `laws` carry what holds of them.
//!
//! [`decide`] is that test over sets of ids: its verdict, with the texts of the ids, is exactly that of the definitions, for
//! all rows and sets of names that the sets of ids stand for in the table (`specs/Decisions.antt`). It compares sets eight words
//! at a time and takes no memory; [`decide_plain`] promises the same and goes one id at a time.
//!
//! Read in this order: `row` (the row of a thread), `refusal` (whether rows admit a patch, whose row doesn't, and why),
//! `decision` (the test), `plain` (the least common name, one id at a time), `laws`.
#![tactic(auto)]

mod decision;
mod laws;
mod plain;
mod refusal;
mod row;

pub use decision::{decide, decide_plain};
pub use laws::{least_slot_refuses, rows_admit_without_obstacle};
pub use refusal::{Effect, Refusal, Verdict};
pub use row::Row;
