ghost use Rattle.std.specs.Prelude.{◌≡◌};
ghost use Rattle.reported_runs.specs.Schedules.{IsKept};

use crate::finish::Finish;
use job_answers::{InForce, Outcome, without_end};
use run_types::Event;
use source_model::OfferAnswer;
use std::alloc::Global;

/// What a call came to that made a run, from what its engine left and how it was reported.
pub fn outcome_of<O>(
    alloc: Global,
    finish: Finish,
    out: O,
    history: Vec<Event>,
    answers: Vec<OfferAnswer>,
    in_force: InForce,
) -> Outcome<O>
    ensures status { result.status ≡ finish.status }
    ensures out { result.out ≡ out }
    ensures history { result.history ≡ history }
    ensures ending { result.ending ≡ finish.ending }
    ensures versions { IsKept finish.ending answers.items in_force result.answers.items result.installed }
{
    match finish.ending {
        Some(ending) => Outcome {
            status: finish.status,
            out,
            history,
            ending: Some(ending),
            answers,
            installed: Some(in_force),
        },
        None => without_end(alloc, finish.status, out, history),
    }
}
