ghost use Rattle.std.specs.Prelude.{◌⊎◌, ◌≡◌, ◌≤◌, ◌∷◌, ℕ, List as ListOf, [], Option, false, length, map};
ghost use Rattle.run_types.specs.declared.run.Event.{Event as Made};
ghost use Rattle.c_tree.specs.declared.def.Program.{Program};
ghost use Rattle.c_front.specs.Accepted.{Accepted};
ghost use Rattle.source_model.specs.declared.answer.OfferAnswer.{OfferAnswer};
ghost use Rattle.source_model.specs.Guards.{Rules, Setup, first_guard};
ghost use Rattle.source_model.specs.Journals.{IsLegal};
ghost use Rattle.source_programs.specs.Programs.{text_in};
ghost use Rattle.accepted_runs.specs.AcceptedRuns.{TextsAreAccepted};
ghost use Rattle.dsu_cli.specs.declared.job.Job.TheVariants.{Replay};
ghost use Rattle.dsu_report.specs.declared.fault.FaultLine.{FaultLine as Line};
ghost use Rattle.effects.specs.Rows.{AreRows};
ghost use Rattle.dsu_runs.specs.Replays.{events_of};
ghost use Rattle.dsu_runs.specs.Setups.{setup_of};
ghost use Rattle.image_load.specs.Loaded.{HasFewNames};
ghost use Rattle.plain_engine.specs.Plain.{IsAt};
ghost use Rattle.job_answers.specs.Answers.{Answers, IsDone, IsExcused};
ghost use Rattle.job_answers.specs.Calls.{Stopped, call_of, output_of};
ghost use Rattle.reported_runs.specs.Schedules.{Hands, run_call};
ghost use Rattle.job_answers.specs.Jobs.{AreKnownPrograms, IsKnownFault, IsKnownJournal, IsReady, KnownOfferFault, KnownReplayFault, lines_of};
ghost use Rattle.job_answers.specs.Plans.{ByJournal};
ghost use Rattle.run_jobs.specs.Remaining.{ReplaysWith, RunsWith};
ghost use Rattle.job_answers.specs.Runs.{Came};
ghost use Rattle.job_answers.specs.declared.outcome.InForce.{InForce as Installed};

use crate::outcome::outcome_of_run;
use c_types::Typed;
use compiled_engine::compiled_engine;
use dsu_cli::{EngineKind, ReplayJob};
use dsu_io::{Files, List, Sink};
use dsu_report::FaultLine;
use dsu_runs::{Engine, Ran, replay, rules_exist};
use frame_bodies::texts_of_programs_are_accepted;
use job_answers::{Outcome, events_of, program_of, stop};
use plain_engine::PlainEngine;
use reported_runs::{Finish, Offers, engine_for, offers_in, report_run, stop_before};
use run_machine::Machine;
use run_types::Event;
use std::alloc::Global;

/// Makes the events of a journal on the program of a file, with the offers of the job. What it prints goes to `out` as it is
/// printed, and its report to `err`. All files are read before the first event is made.
pub fn replay_file<F: Files, O: Sink, E: Sink>(
    alloc: Global,
    job: &ReplayJob,
    files: &mut F,
    out: O,
    err: &mut E,
) -> Outcome<O>
    requires few { length job.now.offers ≤ 63 }
    ensures answers { Answers (Replay job.now) (F.content files.old) (F.faults files.old) (F.faults files.new)
        (call_of result (output_of O.told O.faults out result.out) (output_of E.told E.faults err.old err.new)) }
    ensures complete { IsReady (Replay job.now) (F.content files.old) → IsDone result.status ⊎ IsExcused result.status }
    ensures first { (line : Line) (file : ListOf ℕ) → IsKnownFault (Replay job.now) (F.content files.old) line file
        → IsExcused result.status ⊎ Stopped line file
        (call_of result (output_of O.told O.faults out result.out) (output_of E.told E.faults err.old err.new)) }
{
    let file = job.file.as_str();
    match program_of(alloc, files, file) {
        Ok(program) => replay_program(alloc, program, job, files, out, err),
        Err(line) => stop(alloc, line, file, out, err),
    }
}

/// Makes the events of a journal's file on a program.
fn replay_program<F: Files, O: Sink, E: Sink>(
    alloc: Global,
    program: Typed,
    job: &ReplayJob,
    files: &mut F,
    out: O,
    err: &mut E,
) -> Outcome<O>
    requires few { length job.now.offers ≤ 63 }
    requires accepted { (text : ListOf ℕ) × Accepted text program }
    ensures answers { ReplaysWith (F.content files.old) (F.faults files.old) (F.faults files.new) program job.now
        (call_of result (output_of O.told O.faults out result.out) (output_of E.told E.faults err.old err.new)) }
    ensures complete { (lines : ListOf (ℕ × Made)) (programs : ListOf Program) → IsKnownJournal (F.content files.old job.now.journal) lines
        → AreKnownPrograms (F.content files.old) job.now.offers programs
        → ((rules : Rules) → AreRows rules.row
        → IsLegal rules (setup_of program programs (lines_of job.now.offers) job.now.objects) (events_of lines))
        → IsDone result.status ⊎ IsExcused result.status }
    ensures first { (line : Line) (file : ListOf ℕ) → KnownReplayFault job.now.journal job.now.offers (F.content files.old) line file
        → IsExcused result.status ⊎ Stopped line file
        (call_of result (output_of O.told O.faults out result.out) (output_of E.told E.faults err.old err.new)) }
{
    let file = job.journal.as_str();
    match events_of(alloc, files, file) {
        Ok(lines) => replay_with_offers(alloc, program, &lines, job, files, out, err),
        Err(line) => stop(alloc, line, file, out, err),
    }
}

/// Makes the events of a journal on a program with the offers of a job, whose files aren't read yet.
fn replay_with_offers<F: Files, O: Sink, E: Sink>(
    alloc: Global,
    program: Typed,
    lines: &[(u32, Event)],
    job: &ReplayJob,
    files: &mut F,
    out: O,
    err: &mut E,
) -> Outcome<O>
    requires few { length job.now.offers ≤ 63 }
    requires accepted { (text : ListOf ℕ) × Accepted text program }
    ensures answers { RunsWith (ByJournal lines.now) (F.content files.old) (F.faults files.old) (F.faults files.new) program
        job.now.offers job.now.objects false job.now.journal
        (call_of result (output_of O.told O.faults out result.out) (output_of E.told E.faults err.old err.new)) }
    ensures complete { (programs : ListOf Program) → AreKnownPrograms (F.content files.old) job.now.offers programs
        → ((rules : Rules) → AreRows rules.row
        → IsLegal rules (setup_of program programs (lines_of job.now.offers) job.now.objects) (events_of lines.now))
        → IsDone result.status ⊎ IsExcused result.status }
    ensures first { (line : Line) (file : ListOf ℕ) → KnownOfferFault job.now.offers (F.content files.old) line file
        → IsExcused result.status ⊎ Stopped line file
        (call_of result (output_of O.told O.faults out result.out) (output_of E.told E.faults err.old err.new)) }
{
    rules_exist();
    texts_of_programs_are_accepted();
    match offers_in(alloc, files, job.offers.as_slice()) {
        Ok(offers) => replay_events(alloc, program, offers, lines, job, out, err),
        Err((line, file)) => stop(alloc, line, file, out, err),
    }
}

/// Makes the events of a journal on a program.
fn replay_events<O: Sink, E: Sink>(
    alloc: Global,
    program: Typed,
    offers: Offers,
    lines: &[(u32, Event)],
    job: &ReplayJob,
    out: O,
    err: &mut E,
) -> Outcome<O>
    requires equal { length offers.programs.items ≡ length offers.lines.items }
    requires few { length offers.lines.items ≤ 63 }
    requires accepted { TextsAreAccepted (setup_of program offers.programs.items offers.lines.items job.now.objects) }
    ensures { Came (ByJournal lines.now) (setup_of program offers.programs.items offers.lines.items job.now.objects)
        offers.texts.items false job.now.journal
        (call_of result (output_of O.told O.faults out result.out) (output_of E.told E.faults err.old err.new))
        ⊎ Stopped FaultLine.Memory [] (call_of result (output_of O.told O.faults out result.out) (output_of E.told E.faults err.old err.new)) }
{
    match engine_for(alloc, job.engine, &program, &offers) {
        Ok(EngineKind::Compiled) => replay_compiled(alloc, program, offers, lines, job, out, err),
        Ok(EngineKind::Plain) => replay_plain(alloc, program, offers, lines, job, out, err),
        Err(_) => stop(alloc, FaultLine::Memory, "", out, err),
    }
}

/// Makes the events of a journal on a program, on the compiled engine.
fn replay_compiled<O: Sink, E: Sink>(
    alloc: Global,
    program: Typed,
    offers: Offers,
    lines: &[(u32, Event)],
    job: &ReplayJob,
    out: O,
    err: &mut E,
) -> Outcome<O>
    requires equal { length offers.programs.items ≡ length offers.lines.items }
    requires few { length offers.lines.items ≤ 63 }
    requires accepted { TextsAreAccepted (setup_of program offers.programs.items offers.lines.items job.now.objects) }
    requires named { HasFewNames (map text_in (program ∷ offers.programs.items)) }
    ensures { Came (ByJournal lines.now) (setup_of program offers.programs.items offers.lines.items job.now.objects)
        offers.texts.items false job.now.journal
        (call_of result (output_of O.told O.faults out result.out) (output_of E.told E.faults err.old err.new))
        ⊎ Stopped FaultLine.Memory [] (call_of result (output_of O.told O.faults out result.out) (output_of E.told E.faults err.old err.new)) }
{
    let Offers {
        texts,
        programs,
        lines: printed,
    } = offers;
    match compiled_engine(alloc, program, programs, printed, job.objects, out) {
        Ok(engine) => replay_over(alloc, engine, &texts, lines, job.journal.as_str(), err),
        Err(failed) => stop_before(alloc, failed.why, failed.sink, err),
    }
}

/// Makes the events of a journal on a program, on the plain engine.
fn replay_plain<O: Sink, E: Sink>(
    alloc: Global,
    program: Typed,
    offers: Offers,
    lines: &[(u32, Event)],
    job: &ReplayJob,
    out: O,
    err: &mut E,
) -> Outcome<O>
    requires equal { length offers.programs.items ≡ length offers.lines.items }
    requires few { length offers.lines.items ≤ 63 }
    requires accepted { TextsAreAccepted (setup_of program offers.programs.items offers.lines.items job.now.objects) }
    ensures { Came (ByJournal lines.now) (setup_of program offers.programs.items offers.lines.items job.now.objects)
        offers.texts.items false job.now.journal
        (call_of result (output_of O.told O.faults out result.out) (output_of E.told E.faults err.old err.new))
        ⊎ Stopped FaultLine.Memory [] (call_of result (output_of O.told O.faults out result.out) (output_of E.told E.faults err.old err.new)) }
{
    let Offers {
        texts,
        programs,
        lines: printed,
    } = offers;
    match PlainEngine::new(alloc, program, programs, printed, job.objects, out) {
        Ok(engine) => replay_over(alloc, engine, &texts, lines, job.journal.as_str(), err),
        Err(failed) => stop_before(alloc, failed.why, failed.sink, err),
    }
}

/// Has an engine that is at its start make the events of a journal, which is in that file, reports the run, and hands back what it
/// left. `texts` has those that are offered.
fn replay_over<M: Machine, O: Sink, E: Sink>(
    alloc: Global,
    engine: PlainEngine<M, O>,
    texts: &[List<u8>],
    lines: &[(u32, Event)],
    file: &str,
    err: &mut E,
) -> Outcome<O>
    ensures { M.asks engine.state.run → (setup : Setup) → TextsAreAccepted setup
        → IsAt M.shown setup (first_guard setup) engine.state engine.printed engine.written
        → Came (ByJournal lines.now) setup texts.now false file.now
        (call_of result (output_of O.told O.faults engine.sink result.out) (output_of E.told E.faults err.old err.new)) }
{
    let (ran, finish) = replay_engine(alloc, engine, texts, lines, file, err);
    outcome_of_run(alloc, ran, finish)
}

/// Has an engine make the events of a journal, which is in that file, and reports the run. `texts` has those that are offered.
fn replay_engine<T: Engine, E: Sink>(
    alloc: Global,
    engine: T,
    texts: &[List<u8>],
    lines: &[(u32, Event)],
    file: &str,
    err: &mut E,
) -> (Ran<T>, Finish)
    ensures { T.asks engine → (setup : Setup) → TextsAreAccepted setup → T.is_at setup (first_guard setup) engine
        → (given : ListOf OfferAnswer) (installed : Option Installed)
        → Hands setup (λ g. T.is_at setup g result.0.engine) result.1.ending given installed
        → Came (ByJournal lines.now) setup texts.now false file.now (run_call result.1 result.0 given installed
        (output_of T.told T.faults engine result.0.engine) (output_of E.told E.faults err.old err.new)) }
{
    let ran = replay(alloc, engine, lines);
    let finish = report_run(&ran, false, texts, file, err);
    (ran, finish)
}
