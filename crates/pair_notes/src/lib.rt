//! Notes about two texts of which the newer is no patch of the older: why it isn't.
//!
//! [`change_notes`] asks what `changes` asks of the texts, and [`admission_notes`] what `admits` does, whose older text is the
//! first version of a run. Of texts of which the newer is a patch there are no notes. Both promise the form alone: whatever names
//! and texts have in them, what they give are lines that begin with the mark and have no further newline (`AreNotes` of
//! `fault_notes`). What the lines say is tested.
#![tactic(auto)]

mod causes;
mod notes;

pub use notes::{admission_notes, change_notes};
