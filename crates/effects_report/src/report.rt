//! What is written: the functions and their check-ins.
use check_in_places::{Lines, Section};
use contextual_effects::Effects;
use name_sets::Names;

/// All that is written.
#[derive(Drop)]
pub(crate) struct Report<'a> {
    pub lines: Lines<'a>,
    pub names: Names,
    pub effects: Effects,
    pub sections: Vec<Section>,
}
