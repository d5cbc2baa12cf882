ghost use Rattle.std.specs.Prelude.{◌⊎◌, ◌≡◌, ◌≤◌, ◌∷◌, ℕ, List as ListOf, [], Option, length, map};
ghost use Rattle.c_tree.specs.declared.def.Program.{Program};
ghost use Rattle.c_front.specs.Accepted.{Accepted};
ghost use Rattle.source_model.specs.declared.answer.OfferAnswer.{OfferAnswer};
ghost use Rattle.source_model.specs.Guards.{Setup, first_guard};
ghost use Rattle.source_programs.specs.Programs.{text_in};
ghost use Rattle.accepted_runs.specs.AcceptedRuns.{TextsAreAccepted};
ghost use Rattle.dsu_cli.specs.declared.job.Job.TheVariants.{Run};
ghost use Rattle.dsu_report.specs.declared.fault.FaultLine.{FaultLine as Line};
ghost use Rattle.dsu_runs.specs.Setups.{setup_of};
ghost use Rattle.image_load.specs.Loaded.{HasFewNames};
ghost use Rattle.plain_engine.specs.Plain.{IsAt};
ghost use Rattle.job_answers.specs.Answers.{Answers, IsDone, IsExcused};
ghost use Rattle.job_answers.specs.Calls.{Stopped, call_of, output_of};
ghost use Rattle.reported_runs.specs.Schedules.{Hands, run_call};
ghost use Rattle.job_answers.specs.Jobs.{AreKnownPrograms, IsKnownFault, IsReady, KnownOfferFault};
ghost use Rattle.job_answers.specs.Plans.{BySchedule};
ghost use Rattle.run_jobs.specs.Remaining.{RunsWith};
ghost use Rattle.job_answers.specs.Runs.{Came};
ghost use Rattle.job_answers.specs.declared.outcome.InForce.{InForce as Installed};

use crate::outcome::outcome_of_run;
use c_types::Typed;
use compiled_engine::compiled_engine;
use dsu_cli::{EngineKind, RunJob};
use dsu_io::{Files, List, Sink};
use dsu_report::FaultLine;
use dsu_runs::{Engine, Ran, solo};
use frame_bodies::texts_of_programs_are_accepted;
use job_answers::{Outcome, program_of, stop};
use plain_engine::PlainEngine;
use reported_runs::{Finish, Offers, engine_for, offers_in, report_run, stop_before};
use run_machine::Machine;
use source_model::solo_schedule_is_prompt;
use std::alloc::Global;

/// Runs the program of a file by the solo schedule, with the offers of the job. What it prints goes to `out` as it is printed,
/// and its report to `err`. All files are read before the run begins.
pub fn run_file<F: Files, O: Sink, E: Sink>(
    alloc: Global,
    job: &RunJob,
    files: &mut F,
    out: O,
    err: &mut E,
) -> Outcome<O>
    requires few { length job.now.offers ≤ 63 }
    ensures answers { Answers (Run job.now) (F.content files.old) (F.faults files.old) (F.faults files.new)
        (call_of result (output_of O.told O.faults out result.out) (output_of E.told E.faults err.old err.new)) }
    ensures complete { IsReady (Run job.now) (F.content files.old) → IsDone result.status ⊎ IsExcused result.status }
    ensures first { (line : Line) (file : ListOf ℕ) → IsKnownFault (Run job.now) (F.content files.old) line file
        → IsExcused result.status ⊎ Stopped line file
        (call_of result (output_of O.told O.faults out result.out) (output_of E.told E.faults err.old err.new)) }
{
    let file = job.file.as_str();
    match program_of(alloc, files, file) {
        Ok(program) => run_with_offers(alloc, program, job, files, out, err),
        Err(line) => stop(alloc, line, file, out, err),
    }
}

/// Runs a program with the offers of a job, whose files aren't read yet.
fn run_with_offers<F: Files, O: Sink, E: Sink>(
    alloc: Global,
    program: Typed,
    job: &RunJob,
    files: &mut F,
    out: O,
    err: &mut E,
) -> Outcome<O>
    requires few { length job.now.offers ≤ 63 }
    requires accepted { (text : ListOf ℕ) × Accepted text program }
    ensures answers { RunsWith (BySchedule job.now.moves) (F.content files.old) (F.faults files.old) (F.faults files.new) program
        job.now.offers job.now.objects job.now.journal []
        (call_of result (output_of O.told O.faults out result.out) (output_of E.told E.faults err.old err.new)) }
    ensures complete { (programs : ListOf Program) → AreKnownPrograms (F.content files.old) job.now.offers programs
        → IsDone result.status ⊎ IsExcused result.status }
    ensures first { (line : Line) (file : ListOf ℕ) → KnownOfferFault job.now.offers (F.content files.old) line file
        → IsExcused result.status ⊎ Stopped line file
        (call_of result (output_of O.told O.faults out result.out) (output_of E.told E.faults err.old err.new)) }
{
    texts_of_programs_are_accepted();
    match offers_in(alloc, files, job.offers.as_slice()) {
        Ok(offers) => run_program(alloc, program, offers, job, out, err),
        Err((line, file)) => stop(alloc, line, file, out, err),
    }
}

/// Runs a program by the solo schedule.
fn run_program<O: Sink, E: Sink>(
    alloc: Global,
    program: Typed,
    offers: Offers,
    job: &RunJob,
    out: O,
    err: &mut E,
) -> Outcome<O>
    requires equal { length offers.programs.items ≡ length offers.lines.items }
    requires few { length offers.lines.items ≤ 63 }
    requires accepted { TextsAreAccepted (setup_of program offers.programs.items offers.lines.items job.now.objects) }
    ensures { Came (BySchedule job.now.moves) (setup_of program offers.programs.items offers.lines.items job.now.objects)
        offers.texts.items job.now.journal []
        (call_of result (output_of O.told O.faults out result.out) (output_of E.told E.faults err.old err.new))
        ⊎ Stopped FaultLine.Memory [] (call_of result (output_of O.told O.faults out result.out) (output_of E.told E.faults err.old err.new)) }
{
    match engine_for(alloc, job.engine, &program, &offers) {
        Ok(EngineKind::Compiled) => run_compiled(alloc, program, offers, job, out, err),
        Ok(EngineKind::Plain) => run_plain(alloc, program, offers, job, out, err),
        Err(_) => stop(alloc, FaultLine::Memory, "", out, err),
    }
}

/// Runs a program by the solo schedule on the compiled engine.
fn run_compiled<O: Sink, E: Sink>(
    alloc: Global,
    program: Typed,
    offers: Offers,
    job: &RunJob,
    out: O,
    err: &mut E,
) -> Outcome<O>
    requires equal { length offers.programs.items ≡ length offers.lines.items }
    requires few { length offers.lines.items ≤ 63 }
    requires accepted { TextsAreAccepted (setup_of program offers.programs.items offers.lines.items job.now.objects) }
    requires named { HasFewNames (map text_in (program ∷ offers.programs.items)) }
    ensures { Came (BySchedule job.now.moves) (setup_of program offers.programs.items offers.lines.items job.now.objects)
        offers.texts.items job.now.journal []
        (call_of result (output_of O.told O.faults out result.out) (output_of E.told E.faults err.old err.new))
        ⊎ Stopped FaultLine.Memory [] (call_of result (output_of O.told O.faults out result.out) (output_of E.told E.faults err.old err.new)) }
{
    let Offers {
        texts,
        programs,
        lines,
    } = offers;
    match compiled_engine(alloc, program, programs, lines, job.objects, out) {
        Ok(engine) => run_over(alloc, engine, &texts, job, err),
        Err(failed) => stop_before(alloc, failed.why, failed.sink, err),
    }
}

/// Runs a program by the solo schedule on the plain engine.
fn run_plain<O: Sink, E: Sink>(
    alloc: Global,
    program: Typed,
    offers: Offers,
    job: &RunJob,
    out: O,
    err: &mut E,
) -> Outcome<O>
    requires equal { length offers.programs.items ≡ length offers.lines.items }
    requires few { length offers.lines.items ≤ 63 }
    requires accepted { TextsAreAccepted (setup_of program offers.programs.items offers.lines.items job.now.objects) }
    ensures { Came (BySchedule job.now.moves) (setup_of program offers.programs.items offers.lines.items job.now.objects)
        offers.texts.items job.now.journal []
        (call_of result (output_of O.told O.faults out result.out) (output_of E.told E.faults err.old err.new))
        ⊎ Stopped FaultLine.Memory [] (call_of result (output_of O.told O.faults out result.out) (output_of E.told E.faults err.old err.new)) }
{
    let Offers {
        texts,
        programs,
        lines,
    } = offers;
    match PlainEngine::new(alloc, program, programs, lines, job.objects, out) {
        Ok(engine) => run_over(alloc, engine, &texts, job, err),
        Err(failed) => stop_before(alloc, failed.why, failed.sink, err),
    }
}

/// Runs an engine that is at its start by the solo schedule, reports the run, and hands back what it left. `texts` has those
/// that are offered.
fn run_over<M: Machine, O: Sink, E: Sink>(
    alloc: Global,
    engine: PlainEngine<M, O>,
    texts: &[List<u8>],
    job: &RunJob,
    err: &mut E,
) -> Outcome<O>
    ensures { M.asks engine.state.run → (setup : Setup) → TextsAreAccepted setup
        → IsAt M.shown setup (first_guard setup) engine.state engine.printed engine.written
        → Came (BySchedule job.now.moves) setup texts.now job.now.journal []
        (call_of result (output_of O.told O.faults engine.sink result.out) (output_of E.told E.faults err.old err.new)) }
{
    let (ran, finish) = run_engine(alloc, engine, texts, job, err);
    outcome_of_run(alloc, ran, finish)
}

/// Runs an engine by the solo schedule, and reports the run. `texts` has those that are offered.
fn run_engine<T: Engine, E: Sink>(
    alloc: Global,
    engine: T,
    texts: &[List<u8>],
    job: &RunJob,
    err: &mut E,
) -> (Ran<T>, Finish)
    ensures { T.asks engine → (setup : Setup) → TextsAreAccepted setup → T.is_at setup (first_guard setup) engine
        → (given : ListOf OfferAnswer) (installed : Option Installed)
        → Hands setup (λ g. T.is_at setup g result.0.engine) result.1.ending given installed
        → Came (BySchedule job.now.moves) setup texts.now job.now.journal [] (run_call result.1 result.0 given installed
        (output_of T.told T.faults engine result.0.engine) (output_of E.told E.faults err.old err.new)) }
{
    solo_schedule_is_prompt();
    let ran = solo(alloc, engine, job.moves);
    let finish = report_run(&ran, job.journal, texts, "", err);
    (ran, finish)
}
