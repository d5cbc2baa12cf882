//! What a function's text means for one thread, as definitions: the laws and the machines above cite them.
//!
//! A text is seen without its places (`Bare` of `c_tree`). [`Texts`](../specs/Texts.antt) finds its definitions by name,
//! and `Resolution` turns a function's body into a tree with names, types and conversions resolved. `Evaluation` says how
//! a thread evaluates such a tree by itself: from a list of pending pieces to its next stop, where it meets what threads
//! share.
//!
//! Read the files of `specs/` in this order: `Names` (the names of structs), `Texts` (definitions by name), `Resolved` and
//! `Resolution` (trees with names resolved, and how they come from a text), `Values` (values, conversions, operators),
//! `Points` and `Stops` (where a thread stops, and what it does there), `Pieces` and `Evaluation` (local evaluation),
//! `Threads` (frames and entering a function), `Skeletons` (a body as its points and the ways between them), `Places`
//! (the places of points in a text), `Leaving` (how transactions are left), `Standing` (where a thread stands, as a point)
//! and `SkeletonLaws` (what ties evaluation to skeletons; the calls of `laws` carry it); then, for two texts: `Same` and
//! `Changes` (which names a newer text changes), `Constants` (first values) and `Transformers` (what becomes of old data).
//! In `proofs/` skeletons and places of small trees are computed.
#![tactic(auto)]

mod laws;

pub use laws::{each_point_has_ways_and_a_place, frames_go_along_skeletons};
