//! The plain engine of a text with offers.
use crate::texts::{Offer, lines_of, trees_of, typed_of};
use dsu_io::MemorySink;
use plain_engine::PlainEngine;
use source_runner::SourceRun;
use std::alloc::Global;

/// The engine over a sink in memory.
pub type Plain = PlainEngine<SourceRun, MemorySink>;

/// The engine of a text with some offers, over a sink whose calls with these numbers fail. The tree of the text comes last: each
/// exit of a function that owns one is dear to prove.
pub fn engine_of(alloc: Global, text: &str, offers: &[Offer], failing: &[u64]) -> Option<Plain> {
    let sink = MemorySink::with_room(alloc, 100, failing.to_vec(alloc).ok()?).ok()?;
    let newer = trees_of(alloc, offers)?;
    let lines = lines_of(alloc, offers)?;
    if lines.len() > 63 {
        return None;
    }
    if newer.len() != lines.len() {
        return None;
    }
    let typed = typed_of(alloc, text)?;
    PlainEngine::new(alloc, typed, newer, lines, 100, sink).ok()
}
