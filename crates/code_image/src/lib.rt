//! The code of the texts of a run as threads execute it: verified bodies, and for each place where a thread stops, what it does there
//! and where it goes on, with numbers for names.
//!
//! An image has the texts that a run may install beside the first one. It doesn't change while the run goes on, so threads may share
//! it: which body a call enters is found by the number of the text in force. Whoever makes an image shows that it is that of some
//! texts (`specs/Images`); then no thread looks up a name, a body or a check-in.
//!
//! Read in this order: `act` (what is done at a stop), `function` (a function's code), `image`, and of `specs/` `Acts`, `Images` and `Stacks`.
#![tactic(auto)]

mod act;
mod function;
mod image;

pub use act::{Act, StopPlace};
pub use function::CodeFunction;
pub use image::CodeImage;
