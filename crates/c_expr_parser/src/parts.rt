//! What a parser of statements and definitions reads its expressions, types and single tokens with.
//!
//! Each function reads from the tokens that are left and gives what is after. Their contracts speak of
//! the walk through the tokens, as the layer above continues it.

pub use crate::climb::{assignment, conditional};
pub use crate::constants::constant;
pub use crate::cursor::{MOST_DEPTH, is, is_kind, name, shallow, skip, take};
pub use crate::operand::Operand;
pub use crate::stop::Stop;
pub use crate::type_name::{begins_type, type_name};
