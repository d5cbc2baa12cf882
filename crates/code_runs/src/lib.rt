//! Runs of code, as definitions: threads whose frames are words, what they share, and what their moves change.
//!
//! Read the files of `specs/` in this order: `CodeData` (globals, objects and mutexes as words), `CodeThreads` (frames, threads
//! and slots), `SharedStops` (what a stop does that changes no other thread), `Layouts` (objects that are brought to the text in
//! force), `CodeMoves` (a thread's move), `CodeWaits` (what a thread waits for) and `CodeInstalls` (the install of a newer text). In
//! `proofs/` small cases are computed.
#![tactic(auto)]
