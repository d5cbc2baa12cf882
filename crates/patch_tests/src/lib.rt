//! Tests of the layer of patches: values of constant expressions, what changes between two texts, the faults of transformers,
//! how old data becomes new, and the bodies that a newer text brings.
//!
//! - `texts` and `values`: what the tables below are about
//! - `constants`: `constant_values`
//! - `comparisons`: `sorted_names` and `patch_compare`
//! - `transformers`: `transformer_types`
//! - `formulas`: `versioned_structs`
//! - `pairs`, `fields`, `globals` and `names`: `type_transformers`
//! - `bodies` and `room`: `brought_bodies`, and the room in a store
#![tactic(auto)]

#[cfg(test)]
mod bodies;
#[cfg(test)]
mod comparisons;
#[cfg(test)]
mod constants;
#[cfg(test)]
mod fields;
#[cfg(test)]
mod formulas;
#[cfg(test)]
mod globals;
#[cfg(test)]
mod names;
#[cfg(test)]
mod pairs;
#[cfg(test)]
mod room;
#[cfg(test)]
mod texts;
#[cfg(test)]
mod transformers;
#[cfg(test)]
mod values;
