//! The compiled engine: an engine of `plain_engine` over a run by code.
//!
//! [`compiled_engine`] starts a run of a text with the offers of newer texts, whose threads execute the code of the texts. Its
//! clauses are those of the start over the source machine: from there on the engine is at the guard of the definitions that the
//! events lead to. So what is proved of a run over the one engine is proved of it over the other.
//!
//! That the code of a frame does what its text says, after whatever installs, rests on what is known of the worlds that legal
//! journals of accepted texts come to: they are typed, their threads go on, and no move misuses a definition. `proofs/MetNeeds`
//! shows that these are the needs of a run by code.
#![tactic(auto)]

mod start;

pub use start::compiled_engine;
