//! What words are by place in code, and which bodies are well formed.
//!
//! A word of code is an integer, a handle or a thread. Of an integer no kind is asked: each instruction reduces its operands to
//! the kind in which it works. The shape of a place says which words are on the stack there, which variables are in scope,
//! how many transactions are open, and whether a check-in comes next. A body is well formed where each place that control may
//! come to can be given a shape so that each instruction finds what it takes, each way to a place brings words of the shape
//! there, and check-ins are exactly after the stops that ask for one. Such code never lacks a word, a variable or an
//! instruction between two stops.
//!
//! Read `kind`; then `specs/StopKinds` (what stops take and leave), `Shapes` (what each instruction does to a shape) and
//! `WellFormed`. `proofs/Examples` has small bodies.
#![tactic(auto)]

mod kind;

pub use kind::WordKind;
