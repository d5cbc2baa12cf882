//! The code of each function's tree is well formed.
//!
//! A body whose types are right, whose variables have room and whose transactions are left at their ends has code of which
//! each instruction finds what it takes, with each way to a place bringing the words of that place, and with check-ins
//! exactly behind the stops that ask for one. The shape of a place is the types of the values on the stack there and of the
//! variables in scope. Places behind a return, a `break`, a `continue` or an endless loop, to which control doesn't come, have
//! none.
//!
//! Read `specs/Depths` (how many words an expression's code has on the stack) and `FormedLaws`; the call of `laws` carries it.
//! In `proofs/`, `Segments` has parts of code with the shapes of their places and the targets of their jumps, and how they
//! are put one behind the other, into loops and into a whole; `Instructions` and `Branches` have the parts that jump, `Words`
//! what instructions make of shapes, `Values` the code of expressions, `Declared` the variables in scope, `Bodies` the code of
//! statements and functions, and `Whole` ends the proof.
#![tactic(auto)]

mod laws;

pub use laws::code_is_well_formed;
