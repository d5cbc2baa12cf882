//! What each world of a run holds of the globals, arrays and mutexes of its text.
//!
//! It is laws, above the source machine and the laws of types. A world of accepted texts has one value of the declared type
//! for each global variable of its text and as many values of the elements' type as an array has elements; it has no other
//! globals, and holds no other mutexes. So it is at the start and after each install, whatever the texts are; a move keeps it
//! where the body that it is of types.
//!
//! Read `Holdings` and `WorldLaws` of `specs/`; the calls of `laws` carry the laws. Of `proofs/`, `Cells` has the start and
//! installs. For moves, `Storing` says what a frame's pieces have to say of values, `StoresAhead` and `StoresOn` that local
//! evaluation keeps it, `TypedExpressions` and `TypedBodies` that the bodies of accepted texts have it, and `Threads`,
//! `WorldsStore` and `Moves` that it stays along runs. `Examples` computes small runs, also of texts that don't type.
#![tactic(auto)]

mod laws;

pub use laws::{
    accepted_texts_name_each_once, first_world_holds_its_globals, installs_keep_globals,
    names_are_those_of_texts, worlds_hold_their_globals,
};
