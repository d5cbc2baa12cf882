//! What the types of a text promise of its functions: they resolve to typed trees.
//!
//! `c_types` finds the types of expressions as they are written, and `c_semantics` resolves them to trees in which each
//! conversion is a node. Here the two are one: in an accepted text the tree of each expression has the type that is found,
//! and the body of each function is typed as `typed_trees` says.
//!
//! Read `specs/TypedTexts`; the calls of `laws` carry it. The proof goes by expressions (`proofs/FoundTypes`, `Meanings`,
//! `Nodes`, `NamedNodes`, `Expressions`, `OneType`), statements (`Statements`, with `Parts` for what the grammar says) and
//! functions (`Functions`).
#![tactic(auto)]

mod laws;

pub use laws::{expressions_have_one_type, functions_are_typed};
