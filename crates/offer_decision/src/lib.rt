//! The decision on an offer, as a function of what is kept: of the versions so far their names, their bodies and the last text;
//! the new text; and of each slot where its row in force comes from, whether its thread is pinned, and whether it is in a
//! transaction. Everything but the install itself depends on these alone, so every engine decides by two calls:
//! [`prepare`] does all that doesn't depend on how threads stand, over a shared view of the versions, and [`decide_prepared`] the
//! rest, without memory.
//!
//! The contract of the two (`specs/Prepared.antt`, `specs/Decided.antt`) says of whatever texts the versions are texts of: a text is answered to be no patch with
//! the first cause that the definitions have; a refusal is that of the definitions' verdict over the rows in force before the
//! install; and where the verdict admits the patch, what the install needs is given, with the pins that the definitions set. The
//! rows are those of the definitions of effects; they depend on the store alone, so whoever has kept them hands them in. That a name isn't
//! defined is answered only for a text with such a name, so for no accepted one.
//!
//! Read in this order:
//! - [`seat`]: a slot as a decision sees it
//! - [`prepared`]: what preparing an offer needs, and what it gives
//! - [`answer`]: what is decided, or why nothing is
//! - [`in_force`]: the rows in force of the slots
//! - [`pins`]: the pins before an install and after it
//! - [`verdict`]: the test of the rows
//! - [`offer`]: the whole
//! - [`laws`]: that a decision says what the definitions decide
#![tactic(auto)]

mod answer;
mod in_force;
mod laws;
mod offer;
mod pins;
mod prepared;
mod seat;
mod verdict;

pub use answer::{Decision, DecisionFault};
pub use laws::{decisions_are_decided, refusals_stay};
pub use offer::{decide_prepared, prepare};
pub use prepared::{Found, Offered, Prepared};
pub use seat::Seat;
