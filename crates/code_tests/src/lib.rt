//! Tests of the code that trees become: texts are read from C, and the code of a function is compared, line by line, with a
//! listing that is written by hand from the definitions (`specs/Code.antt` of `tree_code`).
//!
//! - `reading` (the listing of a function of a text)
//! - `expressions`: `expr_gen` alone
//! - `operators`, `places`, `calls`: `expr_gen`, within functions
//! - `statements`, `loops`: `bytecode_gen`
#![tactic(auto)]

#[cfg(test)]
mod calls;
#[cfg(test)]
mod expressions;
#[cfg(test)]
mod loops;
#[cfg(test)]
mod operators;
#[cfg(test)]
mod places;
#[cfg(test)]
mod reading;
#[cfg(test)]
mod statements;
