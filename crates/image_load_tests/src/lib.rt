//! Tests of `image_load`: what is done at each stop of a text with each kind of stop, the words of its first cells, and the tables of two
//! texts that are loaded together.
#![tactic(auto)]

#[cfg(test)]
mod acts;
#[cfg(test)]
mod loads;
#[cfg(test)]
mod shown_tables;
