//! Tests of the layer of effects: what no clause of its crates says, over a text that is read from C and over bodies that
//! are drawn by hand, by public calls alone.
//!
//! - `reading` (the points of a text's `main`) and `points_of_texts`: `point_places` and `skeleton_gen`
//! - `bodies` (bodies as tables of their points, and what is made of them) and `flows`: `effect_flow`
//! - `stores`: `code_store`
//! - `effects_of_calls`: `contextual_effects`
//! - `rows_of_calls`: `checkin_rows`
//! - `rows_of_threads`: `rows_in_force`
#![tactic(auto)]

#[cfg(test)]
mod bodies;
#[cfg(test)]
mod effects_of_calls;
#[cfg(test)]
mod flows;
#[cfg(test)]
mod points_of_texts;
#[cfg(test)]
mod reading;
#[cfg(test)]
mod rows_of_calls;
#[cfg(test)]
mod rows_of_threads;
#[cfg(test)]
mod stores;
