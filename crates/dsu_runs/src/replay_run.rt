ghost use Rattle.source_model.specs.Guards.{Setup, first_guard};
ghost use Rattle.dsu_runs.specs.Replays.{Replayed};

use crate::running::{Running, Step};
use crate::{Engine, Ran, StopCause};
use run_types::Event;
use source_model::seats_fit_their_slots;
use std::alloc::Global;

/// Makes the events of a journal, each with its line, up to the first that can't happen.
pub fn replay<E: Engine>(alloc: Global, engine: E, events: &[(u32, Event)]) -> Ran<E>
    ensures replayed { E.asks engine → (setup : Setup) → E.is_at setup (first_guard setup) engine
        → Replayed setup (E.is_at setup) E.told E.faults engine events.now result }
    ensures asked { E.asks engine → E.asks result.engine }
{
    seats_fit_their_slots();
    let Ok(history) = Vec::with_capacity(alloc, events.len()) else {
        return Ran {
            engine,
            history: Vec::new(alloc),
            cause: StopCause::Memory,
        };
    };
    let mut running = Running { engine, history };
    for (line, event) in events {
        match running.make(*event) {
            Step::Done => {}
            Step::CannotHappen => return running.stop(StopCause::CannotHappen(*line)),
            Step::SinkFailed => return running.stop(StopCause::SinkFailed),
            Step::Memory => return running.stop(StopCause::Memory),
            Step::Misused => return running.stop(StopCause::Misused(*line)),
            Step::UndefinedName => return running.stop(StopCause::UndefinedName(*line)),
        }
    }
    running.end()
}
