//! The trees of a text: expressions, statements and definitions, with the places of their tokens.
//!
//! A tree holds what a text means and not how it is spelled: parentheses, comments and the spelling of
//! numbers and types make no node. Its contract is about two calls. `same_def` tells whether two
//! definitions are the same, which is equality of what `specs/Bare.antt` leaves of them: all but their
//! places and numbers of tokens. A copy equals its original, places and all.
//!
//! Read in this order: `name` (names and types), `expr`, `stmt`, `def` (the trees and their copies), `same`.
#![tactic(auto)]

mod def;
mod expr;
mod name;
mod same;
mod stmt;

pub use def::{
    Array, Binding, Def, DefKind, FieldValue, Function, Length, Parameters, Program, Prototype,
    StructTransform,
};
pub use expr::{Expr, ExprNode, StepOp};
pub use name::{CType, Name};
pub use same::{same_def, same_expr, same_stmt, same_type};
pub use stmt::{Declaration, Stmt, StmtNode};
