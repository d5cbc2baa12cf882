//! The types of what transformers give, down to the struct of each handle.
//!
//! `patch_faults` tells the faults of a text's transformers, and that what they give has the kind of its type: an integer of the
//! kind, or some handle. Here a handle counts as one of its struct: it is null or the number of an object that was made with that
//! tag. So each default, each conversion and each `?:` of handles is between handles of one struct.
//!
//! Read `specs/TransformerTypes`; the call of `laws` carries it. Its proof goes by expressions (`proofs/TransformedHandles`) and
//! by transformers in texts (`Transformed`).
#![tactic(auto)]

mod laws;

pub use laws::transformed_values_are_typed;
