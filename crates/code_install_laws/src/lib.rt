//! What holds of runs of code in which newer texts are installed.
//!
//! It is laws, which join those of moves of code to those of journals. Code that matches the world of a legal journal of accepted texts
//! stands for it, and after an install, of which only the names need be numbered, for the world after it. No move of a thread that
//! isn't at a check-in misuses a definition. What a thread uses next has in the last text the interface that it has in the thread's
//! own, so a field has one number in both.
//!
//! Read `InstalledTexts` and `UsedNames` of `specs/`; the calls of `laws` carry the laws. In `proofs/`, `JournalWorlds`,
//! `JournalInstalls` and `JournalMoves` go by journals, `InstalledTexts` by an install, and `UsedNames` by what a thread does next.
#![tactic(auto)]

mod laws;

pub use laws::{
    accepted_texts_are_coded, installs_stand, journals_stand, journals_use_well, used_names_stay,
};
