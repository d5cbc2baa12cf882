//! Where a thread checks in: the functions of a text, for each of them its check-ins in the order of their places, and the
//! line and the column of each. The reports that print a line for each check-in share this.
//!
//! [`bodies_of`] promises the check-ins of each function of a text, in the order of the text, and the flow of all bodies
//! (`specs/Bodies.antt`, by `AreBodiesOf`): of a check-in its number among the points of its body, how many check-ins of the
//! body come before it, its place in the flow and in the text, and its kind. [`Lines`] finds the line and the column of a place
//! by where the lines begin, without going over the text again.
//!
//! Read in this order: `section` (what is known of check-ins), `spots` (the check-ins of a body), `bodies` (the functions of a
//! text), `lines` (places by line and column), `kind` (the words of kinds).
#![tactic(auto)]

mod bodies;
mod kind;
mod lines;
mod section;
mod spots;

pub use bodies::bodies_of;
pub use kind::kind_word;
pub use lines::Lines;
pub use section::{Bodies, Section, Spot};
