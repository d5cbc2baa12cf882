//! Where private instructions come to, as a function of the code and of the frame's state.
//!
//! A frame that still has private instructions to execute stands for the frame after them: `settled_state` goes on by single
//! instructions until one ends the burst. A burst from a state ends there and nowhere else, and in code whose heights are right each
//! frame comes there.
//!
//! Read `specs/Settled`, then `specs/Laws` and [`laws`].
#![tactic(auto)]

mod laws;

pub use laws::{bursts_come_to_settled_states, sound_code_settles};
