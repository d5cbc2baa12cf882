//! What it means that two definitions are the same, each law as the contract of a call that does nothing.
//!
//! `Changes` of `c_semantics` compares definitions by tests. The laws say that these tests are equality: of all that a
//! definition says of its name, but for initialisers, and of the part that others rely on, its interface. So the names that
//! a newer text changes, those whose interface it changes and those that it adds are exactly what a reader takes them for.
//!
//! Read `EqualParts` and `DefinitionLaws` of `specs/`; the calls of `laws` carry the laws. `Examples` of `proofs/` computes
//! small texts, and `SameTrees` has the equality of trees.
#![tactic(auto)]

mod laws;

pub use laws::{
    added_names_are_the_new_ones, changed_names_are_the_others, same_definitions_are_equal,
    same_interfaces_are_equal, texts_agree_where_equal,
};
