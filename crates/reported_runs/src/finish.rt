ghost use Rattle.std.specs.Prelude.{◌≡◌, List as ListOf, Option, length, None};
ghost use Rattle.source_model.specs.declared.answer.OfferAnswer.{OfferAnswer};
ghost use Rattle.source_model.specs.Guards.{Guard, Setup};
ghost use Rattle.source_model.specs.Journals.{answers};
ghost use Rattle.accepted_runs.specs.AcceptedRuns.{TextsAreAccepted};
ghost use Rattle.dsu_report.specs.Faults.{fault_line};
ghost use Rattle.dsu_report.specs.Statuses.{status_of_line};
ghost use Rattle.job_answers.specs.Calls.{Writes, output_of};
ghost use Rattle.reported_runs.specs.Schedules.{Hands, IsReported, RanBy, run_call};
ghost use Rattle.job_answers.specs.Plans.{Plan};
ghost use Rattle.job_answers.specs.Reports.{run_text};
ghost use Rattle.job_answers.specs.Runs.{Came};
ghost use Rattle.job_answers.specs.declared.outcome.InForce.{InForce};

use crate::report::write_run;
use accepted_runs::accepted_runs_are_version_consistent;
use dsu_io::{List, Sink};
use dsu_report::{FaultLine, LineWord, ending_status, write_fault};
use dsu_runs::{Engine, Ran, StopCause, rules_exist};
use run_types::Ending;
use source_model::{journal_is_a_run, seats_fit_their_slots};
use typed_journals::{deadlocked_threads_wait, mains_result_is_an_int};

/// What a run came to.
#[derive(Clone, Copy)]
pub struct Finish {
    /// The status with which the program ends.
    pub status: u8,
    /// How the run ended, where it ended and its report was written.
    pub ending: Option<Ending>,
}

/// Reports what came of a run. The events are those of the journal in `file`, or of the solo schedule; `texts` has those that
/// were offered. The engine's threads can be asked what they do next.
pub fn report_run<T: Engine, E: Sink>(
    ran: &Ran<T>,
    journal: bool,
    texts: &[List<u8>],
    file: &str,
    err: &mut E,
) -> Finish
    ensures { T.asks ran.now.engine → (plan : Plan) (setup : Setup) (engine : T) → TextsAreAccepted setup
        → RanBy plan setup (T.is_at setup) T.told T.faults engine ran.now
        → (given : ListOf OfferAnswer) (installed : Option InForce)
        → Hands setup (λ g. T.is_at setup g ran.now.engine) result.ending given installed
        → Came plan setup texts.now journal file.now (run_call result ran.now given installed
        (output_of T.told T.faults engine ran.now.engine) (output_of E.told E.faults err.old err.new)) }
{
    rules_exist();
    journal_is_a_run();
    accepted_runs_are_version_consistent();
    mains_result_is_an_int();
    deadlocked_threads_wait();
    seats_fit_their_slots();
    match ran.cause {
        StopCause::Ended(ending) => report_end(ran, ending, journal, texts, err),
        StopCause::SinkFailed => fail(FaultLine::Write, "", err),
        StopCause::CannotHappen(line) => {
            fail(FaultLine::Line(line, LineWord::CannotHappen), file, err)
        }
        StopCause::Memory => fail(FaultLine::Memory, "", err),
        // No run of accepted texts misuses a definition.
        StopCause::Misused(line) => {
            fail(FaultLine::Line(line, LineWord::CannotHappen), file, err)
        }
        // No accepted text uses a name that it doesn't define.
        StopCause::UndefinedName(line) => {
            fail(FaultLine::Line(line, LineWord::CannotHappen), file, err)
        }
    }
}

/// Reports a run that ended.
fn report_end<T: Engine, E: Sink>(
    ran: &Ran<T>,
    ending: Ending,
    journal: bool,
    texts: &[List<u8>],
    err: &mut E,
) -> Finish
    ensures { T.asks ran.now.engine → (setup : Setup) (g : Guard) → T.is_at setup g ran.now.engine → length g.seats ≡ length g.world.slots
        → IsReported (run_text journal ran.now.history.items (answers setup g) texts.now ending g.world) ending result
        (output_of E.told E.faults err.old err.new) }
{
    match write_run(journal, &ran.history, texts, ending, &ran.engine, err) {
        Ok(()) => Finish {
            status: ending_status(ending),
            ending: Some(ending),
        },
        Err(_) => Finish {
            status: FaultLine::Write.status(),
            ending: None,
        },
    }
}

/// Reports a fault by which a run stopped.
fn fail<E: Sink>(fault: FaultLine, file: &str, err: &mut E) -> Finish
    ensures status { result.status ≡ status_of_line fault }
    ensures ending { result.ending ≡ None }
    ensures err { Writes (output_of E.told E.faults err.old err.new) (fault_line fault file.now) }
{
    let _ = write_fault(file, fault, err);
    Finish {
        status: fault.status(),
        ending: None,
    }
}
