//! What holds of the code of each function of an accepted text.
//!
//! The laws of code have premises: of a function's tree that it is typed, has room for its variables and leaves transactions at
//! their ends; of its code that its constants are words, and that few words are on its stack. Each follows from a text's being
//! accepted. Here they are one statement, of each function of such a text, under its own definitions and with room for as
//! many variables as a function may have: its code is well formed, so the verifier passes it, and what it does is tied to
//! local evaluation. Code of a text says nothing of other texts, so it stays what it is when newer texts come.
//!
//! Read `specs/AcceptedCode`; the calls of `laws` carry it. In `proofs/`, `ConstantWords` has the constants of code, `Limits` what
//! a text's limits mean for its functions, `FineCode` the statement, `Unbroken` the verifier, and `TextCode` the functions of a text.
#![tactic(auto)]

mod laws;

pub use laws::{
    accepted_code_is_verified, accepted_functions_have_fine_code,
    code_of_texts_is_that_of_their_functions,
};
