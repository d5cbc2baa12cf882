//! The parser of expressions, and the grammar of the whole language.
//!
//! [`expression`] reads the expression with which some tokens begin, or tells the first token that
//! doesn't fit or is too deep. It takes each token once and descends with the depth of the text alone:
//! chains of binary and postfix operators are loops.
//!
//! `specs/` says which tokens are a text and which tree they are: a relation for each class of phrase
//! and a case for each rule, over the program's own trees with their places. The tokens carry their
//! depth, and each rule says at which depth its tokens stand. `proofs/Examples.antt` reads small texts
//! by it. Read in this order: `Placed` (tokens with their depth), `Quoted` and `Terminals` (what a
//! token must be in a rule), `TypeNames`, `Operators`, `Expressions`, `Declarations`, `Statements`,
//! `Definitions` (the rules), `Readings` (what it is to read tokens, and where they can't be read),
//! `Reading` (what `expression` answers), `Laws` (that there is one tree, and one depth).
//!
//! `Tables`, `Plans` and `WordCounts` are for private contracts: how the functions go through the tokens, as
//! a plan of what is wanted next. `proofs/` shows that plans and grammar say the same: `CompleteExpressions`
//! from the grammar to the plans, `SoundExpressions` back, and `ExactPlans` and `ExpressionLaws` what follows
//! for faults and for the laws.
#![tactic(auto)]

mod climb;
mod constants;
mod cursor;
mod library;
mod nodes;
mod operand;
mod operators;
mod parser;
pub mod parts;
mod postfix;
mod quoted;
mod stop;
mod type_name;
mod unary;

pub use parser::{SyntaxFault, expression, expression_depth, one_expression};
