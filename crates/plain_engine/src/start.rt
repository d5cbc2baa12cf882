//! The start of an engine over the source machine.
ghost use Rattle.std.specs.Prelude.{◌≡◌, ◌≤◌, [], ◌∷◌, length, map, IfOk, IfErr};
ghost use Rattle.source_model.specs.Guards.{first_guard};
ghost use Rattle.source_programs.specs.Programs.{text_in};
ghost use Rattle.source_runner.specs.SourceRuns.{IsRun, trees_of};
ghost use Rattle.run_machine.specs.Sources.{source_shown};
ghost use Rattle.dsu_runs.specs.Setups.{limits_of, setup_of};
ghost use Rattle.installed_versions.specs.Firsts.{IsFirstFault};
ghost use Rattle.plain_engine.specs.Plain.{IsAt};

use crate::state::SLOTS;
use crate::{NotStarted, PlainEngine};
use c_types::Typed;
use dsu_io::Sink;
use installed_versions::FirstFault;
use source_runner::SourceRun;
use std::alloc::{AllocError, Global};

impl<S: Sink> PlainEngine<SourceRun, S> {
    /// The start of a run of a text with the offers of newer texts, each with how many lines the program must
    /// have written before; so many objects may live at once. Where it isn't made, the sink comes back.
    pub fn new(
        alloc: Global,
        text: Typed,
        offers: Vec<Typed>,
        lines: Vec<u32>,
        objects: u32,
        sink: S,
    ) -> Result<PlainEngine<SourceRun, S>, NotStarted<S>>
        requires equal { length offers.items ≡ length lines.items }
        requires few { length lines.items ≤ 63 }
        ensures start { let setup = setup_of text offers.items lines.items objects in
            IfOk result (λ e. IsAt source_shown setup (first_guard setup) e.state e.printed e.written) }
        ensures told { IfOk result (λ e. e.sink ≡ sink) }
        ensures back { IfErr result (λ e. e.sink ≡ sink) }
        ensures fault { IfErr result (λ e. IsFirstFault text e.why) }
    {
        match first_run(alloc, text, offers, objects) {
            Ok(run) => PlainEngine::over(alloc, run, lines, sink),
            Err(_) => Err(NotStarted {
                sink,
                why: FirstFault::Memory,
            }),
        }
    }
}

/// The run at its start.
fn first_run(
    alloc: Global,
    text: Typed,
    offers: Vec<Typed>,
    objects: u32,
) -> Result<SourceRun, AllocError>
    ensures run { IfOk result (IsRun (map text_in (text ∷ offers.items)) (limits_of objects) []) }
    ensures trees { IfOk result (λ r. trees_of r ≡ text ∷ offers.items) }
{
    let mut texts = vec![in alloc; text]?;
    let mut offers = offers;
    texts.append(&mut offers)?;
    SourceRun::new(alloc, texts, objects, SLOTS)
}
