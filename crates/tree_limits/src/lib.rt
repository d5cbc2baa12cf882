//! What the limits of a text mean for the code of its trees: how many words are on its stack, and how many variables it has.
//!
//! The rules of types bound the operand need of each expression in a text, and how many variables a function declares. The code
//! of the tree to which an expression is resolved has one word more at most: that of the old value of `x++`, which is tucked
//! under what is written. And a body's tree has room for its variables where there is room for all that its text declares. So
//! what `formed_code` asks of a tree follows from the limits of its text.
//!
//! Read `specs/LimitLaws`; the call of `laws` carries it. In `proofs/`, `Expressions` and `Statements` bound the words, `Rooms`
//! the variables, each by the nodes of trees.
#![tactic(auto)]

mod laws;

pub use laws::limits_of_texts_are_enough;
