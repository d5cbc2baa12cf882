//! The formats of `printf`: `%d`, `%u`, `%ld`, `%lu` and `%%` (C11 7.21.6.1). A format is read byte by byte. A [`Reading`]
//! is how far its last conversion was read; its contracts promise what a further byte makes of it, and which kind of
//! integer the byte takes. `specs/Formats.antt` also has the kinds that a whole format takes, none where a `%` begins no
//! conversion.
//!
//! - [`reading`]: how far a conversion was read
#![tactic(auto)]

mod reading;

pub use reading::Reading;
