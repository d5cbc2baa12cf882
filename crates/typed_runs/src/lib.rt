//! Type soundness of runs: in each world of a run of accepted texts all values have the types of their places.
//!
//! It is definitions with their laws, above those of typed trees, texts and transformers. A frame is typed where its values and
//! variables have types from which its pending pieces go on well to a result of its function, under the definitions of its version.
//! A frame that called waits for a value of the result's type, and an enter that is due has arguments of its function's parameters.
//! The globals, arrays and objects of a typed world have values of the types that the last text declares, and a handle of a struct is
//! null or the number of an object that was made with that struct's tag.
//!
//! The laws: the first world is typed, each move and each install keeps it so, and so each world that a run comes to is typed, if the
//! transformers of the texts that it installs have no fault. Moves and installs are of any slot at any time. A thread of a typed world
//! makes its next move or waits; that it is in a transaction where it ends one isn't shown here.
//!
//! Read `specs/TypedFrames` (frames, enters, threads), `TypedWorlds` (slots, objects, globals), `TypedRunLaws` and `Progress`; the
//! calls of `laws` carry the laws. Their proof goes by more objects (`proofs/MoreObjects`), names that are used as they are now
//! (`SameUses`), cells and fields (`Places`), arguments (`Arguments`), stops (`Stops`) and moves (`Moves`), the first world
//! (`FirstWorld`), installs (`Installed`), accepted texts (`AcceptedWorlds`) and runs (`Runs`). `Examples` has a small text, and what
//! isn't typed by it.
#![tactic(auto)]

mod laws;

pub use laws::{
    first_worlds_are_typed, installs_keep_types, moves_keep_types, runs_are_typed, threads_go_on,
};
