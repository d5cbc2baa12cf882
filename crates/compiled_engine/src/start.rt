//! The start of an engine over a run by code.
ghost use Rattle.std.specs.Prelude.{◌≡◌, ◌≤◌, ◌-◌, ◌^◌, [], ◌∷◌, length, map, IfOk, IfErr};
ghost use Rattle.source_model.specs.Guards.{first_guard};
ghost use Rattle.c_semantics.specs.SourceTexts.{text_of};
ghost use Rattle.source_programs.specs.Programs.{text_in};
ghost use Rattle.frame_bodies.specs.AcceptedTexts.{AreAccepted};
ghost use Rattle.accepted_runs.specs.AcceptedRuns.{TextsAreAccepted};
ghost use Rattle.dsu_runs.specs.Setups.{limits_of, setup_of};
ghost use Rattle.plain_engine.specs.Plain.{IsAt};
ghost use Rattle.image_load.specs.Loaded.{HasFewNames};
ghost use Rattle.compiled_run.specs.Compiled.{CanBeAsked, Lasts, compiled_shown};

use accepted_runs::accepted_runs_misuse_nothing;
use c_types::Typed;
use compiled_run::CompiledRun;
use dsu_io::Sink;
use image_load::LoadFault;
use installed_versions::{FirstFault, accepted_programs_start};
use plain_engine::{NotStarted, PlainEngine};
use std::alloc::Global;
use typed_journals::{journals_are_typed, threads_of_journals_go_on};

/// How many slots there are.
const SLOTS: u8 = 16;

/// The start of a run by code of an accepted text, with the offers of newer ones, each with how many lines the program must have
/// written before; so many objects may live at once. The code of all texts is made here, in time n log n in them, and all memory is
/// taken that moves need: the machine lasts 2^32 - 1 of them, so no `act` of the engine is out of memory before as many were made.
/// Where the run isn't started, which is so only where memory ran out, the sink comes back.
pub fn compiled_engine<S: Sink>(
    alloc: Global,
    text: Typed,
    offers: Vec<Typed>,
    lines: Vec<u32>,
    objects: u32,
    sink: S,
) -> Result<PlainEngine<CompiledRun, S>, NotStarted<S>>
    requires equal { length offers.items ≡ length lines.items }
    requires few { length lines.items ≤ 63 }
    requires accepted { TextsAreAccepted (setup_of text offers.items lines.items objects) }
    requires named { HasFewNames (map text_in (text ∷ offers.items)) }
    ensures start { let setup = setup_of text offers.items lines.items objects in
        IfOk result (λ e. IsAt compiled_shown setup (first_guard setup) e.state e.printed e.written) }
    ensures lasts { IfOk result (λ e. Lasts (2 ^ 32 - 1) e.state.run) }
    ensures asked { IfOk result (λ e. CanBeAsked e.state.run) }
    ensures told { IfOk result (λ e. e.sink ≡ sink) }
    ensures back { IfErr result (λ e. e.sink ≡ sink) }
    ensures fault { IfErr result (λ e. e.why ≡ FirstFault.Memory) }
{
    accepted_programs_start();
    journals_are_typed();
    threads_of_journals_go_on();
    accepted_runs_misuse_nothing();
    match first_run(alloc, text, offers, objects) {
        Ok(run) => PlainEngine::over(alloc, run, lines, sink),
        Err(fault) => Err(NotStarted {
            sink,
            why: why_of(fault),
        }),
    }
}

/// The run at its start.
fn first_run(
    alloc: Global,
    text: Typed,
    offers: Vec<Typed>,
    objects: u32,
) -> Result<CompiledRun, LoadFault>
    requires accepted { AreAccepted (map text_of (text ∷ offers.items)) }
    requires named { HasFewNames (map text_in (text ∷ offers.items)) }
    ensures run { IfOk result (λ r. (compiled_shown r).is_run (map text_in (text ∷ offers.items)) (limits_of objects) []) }
    ensures trees { IfOk result (λ r. (compiled_shown r).trees ≡ text ∷ offers.items) }
    ensures kept { IfOk result (λ r. (compiled_shown r).kept ≡ 0) }
    ensures lasts { IfOk result (Lasts (2 ^ 32 - 1)) }
    ensures asked { IfOk result CanBeAsked }
    ensures fault { IfErr result (λ fault. fault ≡ LoadFault.Memory) }
{
    let mut texts = vec![in alloc; text]?;
    let mut offers = offers;
    texts.append(&mut offers)?;
    CompiledRun::new(alloc, texts, objects, SLOTS)
}

/// Why a run of accepted texts doesn't start.
fn why_of(fault: LoadFault) -> FirstFault
    requires { fault ≡ LoadFault.Memory }
    ensures { result ≡ FirstFault.Memory }
{
    match fault {
        LoadFault::Memory => FirstFault::Memory,
        LoadFault::NotAccepted => unreachable!(),
    }
}
