//! The types of what threads evaluate: of values, of resolved trees, and of what a frame has still to evaluate.
//!
//! The type of an expression is a function of its tree, the text's definitions and the variables in scope, so the types of
//! a frame's values are those of the place in the text where it is, whatever the run. Each conversion is a node of the
//! tree: where one is left out, the tree isn't typed. What is pending is typed as it is evaluated, by a recursion on the
//! pieces that says from which types of values and variables they go on well to the end of their function.
//!
//! The law: from well-typed values and variables, pending pieces come to a stop that has what it takes and after which the
//! rest goes on well, or to an operator's trap. They never lack a value or a variable.
//!
//! Read `specs/ValueTypes` (values, variables by scope), `ExpressionTypes` and `StatementTypes` (trees), `PieceTypes` (stops
//! and pending pieces) and `TypeLaws`; the call of `laws` carries them. Its proof goes by operators and variables
//! (`proofs/ValuesOfTypes`), single pieces (`SafeSteps`), expressions (`SafeTrees`), statements (`SafeStatements`) and lists
//! of pieces (`SafePieces`). `Examples` has small trees, and what isn't typed.
#![tactic(auto)]

mod laws;

pub use laws::local_evaluation_keeps_types;
