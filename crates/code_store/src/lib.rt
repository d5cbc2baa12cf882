//! The bodies of all versions so far, as values: what an install adds to, and what effects are computed from.
//!
//! A [`Store`] has one [`StoredBody`] for each function of each version that brought a new one, in the order in which they
//! were added. Contracts see the list of these; `specs/Stored.antt` says which bodies of the definitions it is by a table of
//! names. A body is added after those that are there, unless the check-ins or the tokens of all would pass their limits. The
//! bodies of a newer version are added together, and the last ones can be taken out again, where the version is given up. The
//! flow of a store is that of its bodies, and what a function uses directly is what the points of all its bodies use.
//!
//! Read in this order: `body` (a body, its check-ins and its uses), `store` (the store), `laws` (what a store says of the
//! bodies of the definitions).
#![tactic(auto)]

mod body;
mod laws;
mod store;

pub use body::StoredBody;
pub use laws::stores_are_exact;
pub use store::{MOST_CHECK_INS, MOST_FUNCTION_TOKENS, Store, StoreFault};
