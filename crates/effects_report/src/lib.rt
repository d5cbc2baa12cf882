//! The text of a program's effects: for each function the names of its standard effect, and for each of its check-ins, in the
//! order of the text, the three sets of names by which a thread there admits a patch or doesn't.
//!
//! [`write_effects`] promises of an accepted text that what it writes is a text of the effects as `specs/EffectsText.antt` has it, by the
//! definitions of effects in the crate `effects` over the store of the one text: all of it, or a shorter prefix of it where the sink
//! failed, and nothing when out of memory. All sets, and where the lines of the text begin, are computed before the first byte
//! is written, and writing takes no memory. The functions and their check-ins are those of `check_in_places`.
//!
//! Read in this order: `report` (what is written), `table` (names, in the order of their bytes), `sets` (effects by place),
//! `names` (sets of names), `write` (lines), `output` (the whole).
#![tactic(auto)]

mod names;
mod output;
mod report;
mod sets;
mod table;
mod write;

pub use output::write_effects;
