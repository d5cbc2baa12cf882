//! The compiled engine of a text with offers.
ghost use Rattle.std.specs.Prelude.{◌≡◌, ◌≤◌, All, length};
ghost use Rattle.run_tests.specs.ReadTexts.{IsRead};

use crate::texts::{Offer, lines_of, trees_of, typed_of};
use c_types::Typed;
use compiled_engine::compiled_engine;
use compiled_run::CompiledRun;
use dsu_io::MemorySink;
use frame_bodies::texts_of_programs_are_accepted;
use image_load::has_few_names;
use plain_engine::PlainEngine;
use std::alloc::Global;

/// The engine over a sink in memory.
pub type Compiled = PlainEngine<CompiledRun, MemorySink>;

/// The engine of a text with some offers, over a sink whose calls with these numbers fail.
pub fn compiled_of(
    alloc: Global,
    text: &str,
    offers: &[Offer],
    failing: &[u64],
) -> Option<Compiled> {
    let sink = MemorySink::with_room(alloc, 100, failing.to_vec(alloc).ok()?).ok()?;
    let newer = trees_of(alloc, offers)?;
    let lines = lines_of(alloc, offers)?;
    if lines.len() > 63 {
        return None;
    }
    if newer.len() != lines.len() {
        return None;
    }
    let typed = typed_of(alloc, text)?;
    engine_over(alloc, typed, newer, lines, sink)
}

/// The engine of texts that were read.
fn engine_over(
    alloc: Global,
    typed: Typed,
    newer: Vec<Typed>,
    lines: Vec<u32>,
    sink: MemorySink,
) -> Option<Compiled>
    requires equal { length newer.items ≡ length lines.items }
    requires few { length lines.items ≤ 63 }
    requires first { IsRead typed }
    requires offered { All IsRead newer.items }
{
    texts_of_programs_are_accepted();
    match has_few_names(alloc, &typed, newer.as_slice()) {
        Ok(few) => {
            if few {
                compiled_engine(alloc, typed, newer, lines, 100, sink).ok()
            } else {
                None
            }
        }
        Err(_) => None,
    }
}
