ghost use Rattle.std.specs.Prelude.{◌≡◌, ◌&&◌, not, false, length};
ghost use Rattle.source_model.specs.Runs.{some_can_move};
ghost use Rattle.source_model.specs.Guards.{Guard, Setup, has_ended};
ghost use Rattle.source_model.specs.Endings.{ending as ending_of, int_ending, seats_wait};

use crate::Engine;
use run_types::Ending;

/// How a run ends that ends as it is.
pub(crate) fn ending<E: Engine>(engine: &E) -> Ending
    ensures { E.asks engine.now → (setup : Setup) (g : Guard) → E.is_at setup g engine.now → length g.seats ≡ length g.world.slots → result ≡ int_ending (ending_of g) }
{
    match engine.finish() {
        Some(ending) => ending,
        None => {
            if is_stuck(engine) {
                Ending::Deadlock
            } else {
                Ending::Cut
            }
        }
    }
}

/// Whether no thread of a run that goes on is at a check-in or can move.
pub(crate) fn is_stuck<E: Engine>(engine: &E) -> bool
    ensures { E.asks engine.now → (setup : Setup) (g : Guard) → E.is_at setup g engine.now → has_ended g ≡ false → length g.seats ≡ length g.world.slots
        → result ≡ (seats_wait g.seats && not (some_can_move g.world)) }
{
    engine.next_act(None).is_none()
}
