ghost use Rattle.std.specs.Prelude.{◌≡◌, ◌≢◌, ◌≤◌, ◌<◌, ℕ, length, [], ◌∷◌, ◌++◌, true, false, IfOk, OnErr, Ok, Err};
ghost use Rattle.std.specs.Vec.{vec_capacity};
ghost use Rattle.dsu_io.specs.Causes.{Rose};
ghost use Rattle.source_model.specs.Guards.{Guard, Setup};
ghost use Rattle.run_types.specs.declared.run.Event.TheVariants.{Decide, Move};
ghost use Rattle.source_model.specs.Schedules.{makes_move};
ghost use Rattle.source_model.specs.Endings.{ending as ending_of, int_ending};
ghost use Rattle.dsu_runs.specs.Engines.{MakesAt};
ghost use Rattle.dsu_runs.specs.Turns.{Steps, history_after, ran_of, step_by};
ghost use Rattle.dsu_runs.specs.UndefinedNames.{UsesUndefined};

use crate::ending::ending;
use crate::{Engine, Made, Ran, StopCause, Undecided};
use run_types::Event;

/// What came of an event.
#[derive(Clone, Copy)]
pub(crate) enum Step {
    Done,
    CannotHappen,
    SinkFailed,
    Memory,
    /// An offer isn't decided, since a definition was misused.
    Misused,
    /// An offer isn't decided, since a function of its text uses a name that this text doesn't define.
    UndefinedName,
}

/// A run on its way.
#[derive(Drop)]
pub(crate) struct Running<E> {
    pub engine: E,
    /// The events that were made, the first one first.
    pub history: Vec<Event>,
}

impl<E: Engine> Running<E> {
    /// Makes an event, and keeps it.
    pub fn make(&mut self, event: Event) -> Step
        requires { length self.old.history.items < vec_capacity self.old.history }
        ensures made { (setup : Setup) (g : Guard) → E.is_at setup g self.old.engine
            → Steps (λ x. E.is_at setup x self.new.engine) setup event g
            (E.told self.old.engine) (E.told self.new.engine) result }
        ensures history { self.new.history.items ≡ history_after event self.old.history.items result }
        ensures room { vec_capacity self.old.history ≤ vec_capacity self.new.history }
        ensures asked { E.asks self.old.engine → E.asks self.new.engine }
        ensures later { E.faults self.old.engine ≤ E.faults self.new.engine }
        ensures cause { result ≡ Step.SinkFailed → Rose (E.faults self.old.engine) (E.faults self.new.engine) }
        ensures moves { result ≡ Step.SinkFailed → makes_move event ≡ true }
        ensures stays { result ≡ Step.Memory → makes_move event ≡ false → (setup : Setup) (g : Guard)
            → E.is_at setup g self.old.engine → E.is_at setup g self.new.engine }
    {
        let step = step_of(make(&mut self.engine, event));
        match step {
            Step::Done | Step::SinkFailed => keep(&mut self.history, event),
            Step::CannotHappen | Step::Memory | Step::Misused | Step::UndefinedName => {}
        }
        step
    }

    /// The run at its end, with how it ended.
    pub fn end(self) -> Ran<E>
        ensures ended { E.asks self.engine → (setup : Setup) (g : Guard) → E.is_at setup g self.engine
            → length g.seats ≡ length g.world.slots → result ≡ ran_of self (StopCause.Ended (int_ending (ending_of g))) }
        ensures engine { result.engine ≡ self.engine }
    {
        let ending = ending(&self.engine);
        self.stop(StopCause::Ended(ending))
    }

    /// The run as it is, with the cause for which no more is made.
    pub fn stop(self, cause: StopCause) -> Ran<E>
        ensures { result ≡ ran_of self cause }
    {
        let Running { engine, history } = self;
        Ran {
            engine,
            history,
            cause,
        }
    }
}

/// What came of an event, with why it wasn't made.
fn step_of(made: Result<Made, Undecided>) -> Step
    ensures { result ≡ step_by made }
{
    match made {
        Ok(Made::Done) => Step::Done,
        Ok(Made::CannotHappen) => Step::CannotHappen,
        Ok(Made::SinkFailed) => Step::SinkFailed,
        Err(Undecided::Memory) => Step::Memory,
        Err(Undecided::Misused) => Step::Misused,
        Err(Undecided::UndefinedName) => Step::UndefinedName,
    }
}

/// Has an engine make a move.
fn act<E: Engine>(engine: &mut E, slot: u8) -> Result<Made, Undecided>
    ensures made { (setup : Setup) (g : Guard) → E.is_at setup g engine.old → IfOk result
        (MakesAt (λ x. E.is_at setup x engine.new) setup (Move slot) g (E.told engine.old) (E.told engine.new)) }
    ensures silent { OnErr result (E.told engine.new ≡ E.told engine.old) }
    ensures asked { E.asks engine.old → E.asks engine.new }
    ensures later { E.faults engine.old ≤ E.faults engine.new }
    ensures cause { result ≡ Ok Made.SinkFailed → Rose (E.faults engine.old) (E.faults engine.new) }
    ensures memory { result ≢ Err Undecided.Misused }
    ensures defined { result ≢ Err Undecided.UndefinedName }
{
    match engine.act(slot) {
        Ok(made) => Ok(made),
        Err(_) => Err(Undecided::Memory),
    }
}

/// Has an engine make an event. Only a move that wants memory leaves the engine as it can't be used any more.
fn make<E: Engine>(engine: &mut E, event: Event) -> Result<Made, Undecided>
    ensures made { (setup : Setup) (g : Guard) → E.is_at setup g engine.old → IfOk result
        (MakesAt (λ x. E.is_at setup x engine.new) setup event g (E.told engine.old) (E.told engine.new)) }
    ensures silent { OnErr result (E.told engine.new ≡ E.told engine.old) }
    ensures asked { E.asks engine.old → E.asks engine.new }
    ensures later { E.faults engine.old ≤ E.faults engine.new }
    ensures cause { result ≡ Ok Made.SinkFailed → Rose (E.faults engine.old) (E.faults engine.new) }
    ensures moves { result ≡ Ok Made.SinkFailed → makes_move event ≡ true }
    ensures stays { OnErr result (makes_move event ≡ false → (setup : Setup) (g : Guard)
        → E.is_at setup g engine.old → E.is_at setup g engine.new) }
    ensures decides { result ≡ Err Undecided.Misused → (k : ℕ) × (event ≡ Decide k) }
    ensures misused { result ≡ Err Undecided.Misused → (setup : Setup) (g : Guard) → E.is_at setup g engine.old
        → g.world.misused ≡ true }
    ensures offers { result ≡ Err Undecided.UndefinedName → (k : ℕ) × (event ≡ Decide k) }
    ensures undefined { result ≡ Err Undecided.UndefinedName → (k : ℕ) → event ≡ Decide k → (setup : Setup) (g : Guard)
        → E.is_at setup g engine.old → UsesUndefined setup k }
{
    match event {
        Event::Move(slot) => act(engine, slot),
        Event::CheckIn(slot) => Ok(engine.check_in(slot)),
        Event::Offer(k) => Ok(engine.offer(k)),
        Event::Decide(k) => engine.decide(k),
        Event::Withdraw(k) => Ok(engine.withdraw(k)),
    }
}

/// Keeps an event, for which there is room.
#[inline(always)]
pub(crate) fn keep(history: &mut Vec<Event>, event: Event)
    requires { length history.old.items < vec_capacity history.old }
    ensures items { history.new.items ≡ history.old.items ++ event ∷ [] }
    ensures room { vec_capacity history.old ≤ vec_capacity history.new }
{
    history.push_reserved(event);
}
