//! The place in the text of each point of a function: where its accesses, calls and check-ins are for a reader.
//!
//! [`places_of`] walks two trees of a function side by side: its body with names resolved, in a table, and its tree with
//! places. The first has conversions besides, and the second casts; neither makes a point. The contract promises exactly
//! the places of the definitions (`Places` of `c_semantics`), one for each point of the function's skeleton and in its
//! order; also where the two trees don't fit together the definitions' stand-ins are followed. Places are counted in bytes
//! from the start of the text.
//!
//! Read in this order: `parts` (the parts of a tree with places, by number), `append` and `access` (the points that a tree
//! makes itself), `expression`, `evaluated` (the expressions of a statement), `statement`, `function`.
#![tactic(auto)]

mod access;
mod append;
mod evaluated;
mod expression;
mod function;
mod parts;
mod statement;

pub use function::places_of;
