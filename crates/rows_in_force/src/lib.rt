//! The row in force of a thread, from the little that is kept of the thread: of one that was started its function; of one
//! that passed a check-in its innermost frame's function, the version under which that frame was entered, and the point of
//! its last stop. [`rows`] gives the rows over all bodies of a store, and [`row_of`] the row among them that is in force: that
//! of the mark by which the source machine says where a row comes from (`specs/Origins.antt`). Bodies of later versions change
//! no mark ([`marks_stay`]).
//!
//! Read in this order:
//! - [`origin`]: what is kept of a thread
//! - [`bodies`]: the bodies of a function in a store
//! - [`check_ins`]: the number of a check-in in its body
//! - [`in_force`]: the row in force
//! - [`store_rows`]: the rows over a store
//! - [`laws`]: what holds of marks
#![tactic(auto)]

mod bodies;
mod check_ins;
mod in_force;
mod laws;
mod origin;
mod store_rows;

pub use in_force::row_of;
pub use laws::{marks_are_of_frames, marks_stay};
pub use origin::Origin;
pub use store_rows::rows;
