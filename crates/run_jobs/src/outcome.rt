ghost use Rattle.std.specs.Prelude.{◌≡◌};
ghost use Rattle.source_model.specs.Guards.{Setup};
ghost use Rattle.plain_engine.specs.Plain.{IsAt};
ghost use Rattle.reported_runs.specs.Schedules.{Hands};

use dsu_io::Sink;
use dsu_runs::Ran;
use job_answers::{InForce, Outcome};
use plain_engine::PlainEngine;
use reported_runs::{Finish, outcome_of};
use run_machine::Machine;
use std::alloc::Global;

/// What a call came to that made a run, from what its engine left and how the run was reported.
pub(crate) fn outcome_of_run<M: Machine, O: Sink>(
    alloc: Global,
    ran: Ran<PlainEngine<M, O>>,
    finish: Finish,
) -> Outcome<O>
    ensures status { result.status ≡ finish.status }
    ensures out { result.out ≡ ran.engine.sink }
    ensures history { result.history ≡ ran.history }
    ensures ending { result.ending ≡ finish.ending }
    ensures versions { (setup : Setup) → Hands setup (λ g. IsAt M.shown setup g ran.engine.state ran.engine.printed ran.engine.written)
        finish.ending result.answers.items result.installed }
{
    let version = ran.engine.version();
    let (out, answers, names) = ran.engine.into_parts();
    let in_force = InForce { version, names };
    outcome_of(alloc, finish, out, ran.history, answers, in_force)
}
