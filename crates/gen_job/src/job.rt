ghost use Rattle.std.specs.Prelude.{◌⊎◌, ◌≡◌, ◌<◌, ◌≤◌, ◌/◌, ℕ, List as ListOf, [], ◌∷◌, false, length, map};
ghost use Rattle.dsu_io.specs.Causes.{FailedReads};
ghost use Rattle.c_front.specs.Accepted.{Accepted};
ghost use Rattle.c_tree.specs.declared.def.Program.{Program};
ghost use Rattle.source_model.specs.Guards.{Guard, Setup, first_guard};
ghost use Rattle.source_model.specs.Journals.{answers};
ghost use Rattle.source_programs.specs.Programs.{text_in};
ghost use Rattle.accepted_runs.specs.AcceptedRuns.{TextsAreAccepted};
ghost use Rattle.dsu_cli.specs.declared.job.Job.TheVariants.{Gen};
ghost use Rattle.dsu_report.specs.declared.fault.FaultLine.{FaultLine as Line};
ghost use Rattle.dsu_runs.specs.Setups.{setup_of};
ghost use Rattle.image_load.specs.Loaded.{HasFewNames};
ghost use Rattle.plain_engine.specs.Plain.{IsAt};
ghost use Rattle.program_gen.specs.Generated.{offer_text};
ghost use Rattle.job_answers.specs.Answers.{Answers, IsDone, IsExcused};
ghost use Rattle.job_answers.specs.Calls.{Stopped, call_of, output_of};
ghost use Rattle.gen_job.specs.Parts.{IsOnlyOffer, Printed};
ghost use Rattle.job_answers.specs.Generated.{SummaryFailed, Summed, Unprinted, generated_setup, lines_in, summary_text};
ghost use Rattle.job_answers.specs.Jobs.{Contents, IsKnownFault, IsReady};
ghost use Rattle.job_answers.specs.Reports.{run_text};

use crate::generated::generated;
use crate::summary::summary_of;
use accepted_runs::accepted_runs_are_version_consistent;
use c_types::Typed;
use compiled_engine::compiled_engine;
use dsu_cli::EngineKind;
use dsu_io::{List, NullSink, Sink, put};
use dsu_report::{FaultLine, LineWord, ending_status};
use dsu_runs::{Ran, StopCause, rules_exist, solo};
use frame_bodies::texts_of_programs_are_accepted;
use job_answers::{InForce, Outcome, stop, stop_after};
use plain_engine::PlainEngine;
use reported_runs::{Finish, Offers, engine_for, outcome_of, stop_before};
use run_machine::Machine;
use run_types::Ending;
use source_model::{journal_is_a_run, seats_fit_their_slots, solo_schedule_is_prompt};
use std::alloc::Global;
use typed_journals::{deadlocked_threads_wait, mains_result_is_an_int};

/// The most moves that a generated program makes.
const MOVES: u32 = 1_000_000;

/// The most objects that live at once.
const OBJECTS: u32 = 4096;

/// Makes the program of a seed and a size with its offer, runs it by the solo schedule, and prints on `out` a summary of the run.
/// What the program prints is counted, and goes nowhere.
pub fn run_generated<O: Sink, E: Sink>(
    alloc: Global,
    seed: u64,
    size: u32,
    asked: EngineKind,
    out: O,
    err: &mut E,
) -> Outcome<O>
    requires some { 0 < size }
    // No file is read, and which engine makes the run shows in nothing.
    ensures answers { (engine : EngineKind) (content : Contents) (faults : FailedReads)
        → Answers (Gen seed size engine) content faults faults
        (call_of result (output_of O.told O.faults out result.out) (output_of E.told E.faults err.old err.new)) }
    ensures complete { (engine : EngineKind) (content : Contents) → IsReady (Gen seed size engine) content
        → IsDone result.status ⊎ IsExcused result.status }
    ensures first { (engine : EngineKind) (content : Contents) (line : Line) (file : ListOf ℕ)
        → IsKnownFault (Gen seed size engine) content line file
        → IsExcused result.status ⊎ Stopped line file
        (call_of result (output_of O.told O.faults out result.out) (output_of E.told E.faults err.old err.new)) }
{
    match generated(alloc, seed, size) {
        Ok((program, offers)) => run_offered(alloc, seed, size, asked, program, offers, out, err),
        Err((line, file)) => stop(alloc, line, file, out, err),
    }
}

/// Runs a generated program with its offer, and prints the summary.
fn run_offered<O: Sink, E: Sink>(
    alloc: Global,
    seed: u64,
    size: u32,
    asked: EngineKind,
    program: Typed,
    offers: Offers,
    out: O,
    err: &mut E,
) -> Outcome<O>
    requires equal { length offers.programs.items ≡ length offers.lines.items }
    requires few { length offers.lines.items ≤ 63 }
    requires accepted { (text : ListOf ℕ) × Accepted text program }
    requires offer { IsOnlyOffer (offer_text seed size) (size / 2) offers }
    ensures { (next : Program) → offers.programs.items ≡ next ∷ [] → Summed seed size (generated_setup size program next)
        (call_of result (output_of O.told O.faults out result.out) (output_of E.told E.faults err.old err.new))
        ⊎ SummaryFailed seed size (generated_setup size program next)
        (call_of result (output_of O.told O.faults out result.out) (output_of E.told E.faults err.old err.new))
        ⊎ Stopped FaultLine.Memory [] (call_of result (output_of O.told O.faults out result.out) (output_of E.told E.faults err.old err.new)) }
{
    texts_of_programs_are_accepted();
    match engine_for(alloc, asked, &program, &offers) {
        Ok(EngineKind::Compiled) => run_compiled(alloc, seed, size, program, offers, out, err),
        Ok(EngineKind::Plain) => run_plain(alloc, seed, size, program, offers, out, err),
        Err(_) => stop(alloc, FaultLine::Memory, "", out, err),
    }
}

/// Runs a generated program with its offer on the compiled engine, and prints the summary.
fn run_compiled<O: Sink, E: Sink>(
    alloc: Global,
    seed: u64,
    size: u32,
    program: Typed,
    offers: Offers,
    out: O,
    err: &mut E,
) -> Outcome<O>
    requires equal { length offers.programs.items ≡ length offers.lines.items }
    requires few { length offers.lines.items ≤ 63 }
    requires accepted { TextsAreAccepted (setup_of program offers.programs.items offers.lines.items 4096) }
    requires offer { offers.texts.items ≡ offer_text seed size ∷ [] }
    requires named { HasFewNames (map text_in (program ∷ offers.programs.items)) }
    ensures { Summed seed size (setup_of program offers.programs.items offers.lines.items 4096)
        (call_of result (output_of O.told O.faults out result.out) (output_of E.told E.faults err.old err.new))
        ⊎ SummaryFailed seed size (setup_of program offers.programs.items offers.lines.items 4096)
        (call_of result (output_of O.told O.faults out result.out) (output_of E.told E.faults err.old err.new))
        ⊎ Stopped FaultLine.Memory [] (call_of result (output_of O.told O.faults out result.out) (output_of E.told E.faults err.old err.new)) }
{
    let Offers {
        texts,
        programs,
        lines,
    } = offers;
    match compiled_engine(alloc, program, programs, lines, OBJECTS, NullSink::new()) {
        Ok(engine) => run_engine(alloc, seed, size, engine, &texts, out, err),
        Err(failed) => stop_before(alloc, failed.why, out, err),
    }
}

/// Runs a generated program with its offer on the plain engine, and prints the summary.
fn run_plain<O: Sink, E: Sink>(
    alloc: Global,
    seed: u64,
    size: u32,
    program: Typed,
    offers: Offers,
    out: O,
    err: &mut E,
) -> Outcome<O>
    requires equal { length offers.programs.items ≡ length offers.lines.items }
    requires few { length offers.lines.items ≤ 63 }
    requires accepted { TextsAreAccepted (setup_of program offers.programs.items offers.lines.items 4096) }
    requires offer { offers.texts.items ≡ offer_text seed size ∷ [] }
    ensures { Summed seed size (setup_of program offers.programs.items offers.lines.items 4096)
        (call_of result (output_of O.told O.faults out result.out) (output_of E.told E.faults err.old err.new))
        ⊎ SummaryFailed seed size (setup_of program offers.programs.items offers.lines.items 4096)
        (call_of result (output_of O.told O.faults out result.out) (output_of E.told E.faults err.old err.new))
        ⊎ Stopped FaultLine.Memory [] (call_of result (output_of O.told O.faults out result.out) (output_of E.told E.faults err.old err.new)) }
{
    let Offers {
        texts,
        programs,
        lines,
    } = offers;
    match PlainEngine::new(alloc, program, programs, lines, OBJECTS, NullSink::new()) {
        Ok(engine) => run_engine(alloc, seed, size, engine, &texts, out, err),
        Err(failed) => stop_before(alloc, failed.why, out, err),
    }
}

/// Runs an engine by the solo schedule, and prints the summary. `texts` has the one that is offered.
fn run_engine<M: Machine, O: Sink, E: Sink>(
    alloc: Global,
    seed: u64,
    size: u32,
    engine: PlainEngine<M, NullSink>,
    texts: &[List<u8>],
    out: O,
    err: &mut E,
) -> Outcome<O>
    ensures { M.asks engine.state.run → (setup : Setup) → TextsAreAccepted setup → IsAt M.shown setup (first_guard setup) engine.state engine.printed engine.written
        → texts.now ≡ offer_text seed size ∷ [] → Summed seed size setup
        (call_of result (output_of O.told O.faults out result.out) (output_of E.told E.faults err.old err.new))
        ⊎ SummaryFailed seed size setup
        (call_of result (output_of O.told O.faults out result.out) (output_of E.told E.faults err.old err.new))
        ⊎ Stopped FaultLine.Memory [] (call_of result (output_of O.told O.faults out result.out) (output_of E.told E.faults err.old err.new)) }
{
    solo_schedule_is_prompt();
    rules_exist();
    journal_is_a_run();
    accepted_runs_are_version_consistent();
    mains_result_is_an_int();
    deadlocked_threads_wait();
    seats_fit_their_slots();
    let ran = solo(alloc, engine, MOVES);
    match ran.cause {
        StopCause::Ended(ending) => summarize(alloc, seed, size, ran, ending, texts, out, err),
        StopCause::Memory => stop(alloc, FaultLine::Memory, "", out, err),
        // The sink takes all bytes.
        StopCause::SinkFailed => stop(alloc, FaultLine::Write, "", out, err),
        // The schedule has no event that can't happen, and withdraws an offer that isn't decided.
        StopCause::CannotHappen(line) | StopCause::Misused(line) | StopCause::UndefinedName(line) =>
            {
                let fault = FaultLine::Line(line, LineWord::CannotHappen);
                stop(alloc, fault, "", out, err)
            }
    }
}

/// Prints the summary of a run that ended.
fn summarize<M: Machine, O: Sink, E: Sink>(
    alloc: Global,
    seed: u64,
    size: u32,
    ran: Ran<PlainEngine<M, NullSink>>,
    ending: Ending,
    texts: &[List<u8>],
    out: O,
    err: &mut E,
) -> Outcome<O>
    ensures { M.asks ran.engine.state.run → (setup : Setup) (g : Guard) → IsAt M.shown setup g ran.engine.state ran.engine.printed ran.engine.written
        → length g.seats ≡ length g.world.slots
        → let summary = summary_text seed size (lines_in g.world.output) (run_text false [] (answers setup g) texts.now ending g.world) in
        Printed setup (λ x. IsAt M.shown setup x ran.engine.state ran.engine.printed ran.engine.written) ran.history.items ending summary
        (call_of result (output_of O.told O.faults out result.out) (output_of E.told E.faults err.old err.new))
        ⊎ Unprinted summary
        (call_of result (output_of O.told O.faults out result.out) (output_of E.told E.faults err.old err.new))
        ⊎ Stopped FaultLine.Memory [] (call_of result (output_of O.told O.faults out result.out) (output_of E.told E.faults err.old err.new)) }
{
    let lines = ran.engine.lines_written();
    match summary_of(alloc, seed, size, lines, texts, ending, &ran.engine) {
        Ok(summary) => print_summary(alloc, ran, ending, &summary, out, err),
        Err(_) => stop(alloc, FaultLine::Memory, "", out, err),
    }
}

/// Prints a summary, and hands back the run.
fn print_summary<M: Machine, O: Sink, E: Sink>(
    alloc: Global,
    ran: Ran<PlainEngine<M, NullSink>>,
    ending: Ending,
    summary: &[u8],
    out: O,
    err: &mut E,
) -> Outcome<O>
    ensures { (setup : Setup)
        → Printed setup (λ x. IsAt M.shown setup x ran.engine.state ran.engine.printed ran.engine.written) ran.history.items ending summary.now
        (call_of result (output_of O.told O.faults out result.out) (output_of E.told E.faults err.old err.new))
        ⊎ Unprinted summary.now
        (call_of result (output_of O.told O.faults out result.out) (output_of E.told E.faults err.old err.new)) }
{
    let mut out = out;
    match put(&mut out, summary) {
        Ok(()) => {
            let finish = Finish {
                status: ending_status(ending),
                ending: Some(ending),
            };
            let version = ran.engine.version();
            let (_, answers, names) = ran.engine.into_parts();
            let in_force = InForce { version, names };
            outcome_of(alloc, finish, out, ran.history, answers, in_force)
        }
        Err(_) => stop_after(alloc, Vec::new(alloc), FaultLine::Write, "", out, err),
    }
}
