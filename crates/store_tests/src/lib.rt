//! Tests of what the threads of a compiled run share: what no clause says, over values that were chosen by hand, by public
//! calls alone. Most of it is that calls which take memory, or may take none, do give what they promise.
//!
//! - `objects`: a million creations and ends against a table, full stores, stale handles
//! - `cells`: cells within and past what was reserved
//! - `locks`: each call from each state of a mutex among three threads
#![tactic(auto)]

#[cfg(test)]
mod cells;
#[cfg(test)]
mod locks;
#[cfg(test)]
mod objects;
