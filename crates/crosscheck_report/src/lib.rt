//! What is printed of a journal that the source machine ran: how kept bytes compare with its output, how the run ended, and which
//! versions the definitions of each transaction share.
//!
//! [`write_crosscheck`] takes the lines of the ending as bytes; its contract has every other byte (`specs/CrosscheckLines`), and
//! [`comparison_status`] the status with which the program ends. Neither takes memory.
#![tactic(auto)]

mod write;

pub use write::{comparison_status, write_crosscheck};
