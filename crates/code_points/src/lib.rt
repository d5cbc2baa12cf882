//! The points of code, and the ways between them: those of the tree of which the code was made.
//!
//! A stop, a back edge and a check-in are instructions with the number of a point. The points of a function's code in the
//! order of its instructions are those of its tree in the order of evaluation, each in as many transactions, and their
//! numbers count them from 0 on. So code of any tree has the skeleton's points, typed or not.
//!
//! From a point control goes on at the next instruction, from a back edge at its loop's beginning, and from a return
//! nowhere. With each conditional jump taken both ways, private instructions come from there to exactly the points to
//! which the skeleton says that control may go. This asks that no `break` or `continue` leads out of the body, as none does
//! in a body that types. What is known of skeletons, as effects and rows, so holds of code.
//!
//! Read `specs/CodePoints`, `CodeWays` and `PointLaws`; the call of `laws` carries them. In `proofs/`, `Parts`, `Expressions`
//! and `Statements` give each part of a tree its points; `Exact` has the instructions to which control comes, `Going` the
//! parts of skeletons, and `GoingExpressions` and `GoingStatements` the code of each part of a tree; `Leading` finds a
//! point's row by its number.
#![tactic(auto)]

mod laws;

pub use laws::code_has_points_of_trees;
