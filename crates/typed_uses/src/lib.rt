//! What types promise of names: in a text that types, each point of a function uses a name that the text defines.
//!
//! `c_types` looks names up in the tree of a text, and `c_semantics` resolves them in its definitions without places. Here
//! the two are brought together: where an expression has no fault, its type is the one that it is resolved to, and each of
//! its points names a struct, global, array, function or mutex that is defined.
//!
//! Read `specs/UseLaws`; the call of `laws` carries it. Its proof goes by expressions (`proofs/Agreement`, `Nodes`,
//! `NamedNodes`, `Expressions`), statements (`Statements`) and functions (`Uses`); before them come the points of a tree
//! (`Points`), what holds where there is no fault (`Faultless`, `SoundTexts`), and what a name stands for in a text
//! (`Lookups`, `Definitions`) and in a block (`Locals`). `Identifiers` and `DeclaredNames` say why the names of a text that
//! is read are apart, `Examples` that they must be.
#![tactic(auto)]

mod laws;

pub use laws::each_use_is_defined;
