//! Tests of `word_layouts`: objects that are made in one version and used in a later one, by texts that are read from C.
#![tactic(auto)]

#[cfg(test)]
mod objects;
