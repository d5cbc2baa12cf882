//! The functions of a text as trees with their names resolved, all in one table.
//!
//! A tree is named by its number in the table, and a name or a format by that of its text, so that what holds numbers
//! copies no tree. [`Trees`] adds a tree after its parts and never changes it; its contract sees each tree as the
//! definitions of `c_semantics` have it, and knows how many points it has. `name_resolution` adds the bodies of functions.
//!
//! Read in this order: `words` (names by number), `node` (what a tree is made of), `trees` (the table).
#![tactic(auto)]

mod node;
mod trees;
mod words;

pub use node::{
    ArgumentsNode, ExpressionNode, Node, NodeId, Place, StatementNode, StatementsNode, ValueType,
};
pub use trees::{Trees, later, sum};
pub use words::{Word, Words};
