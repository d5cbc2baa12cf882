ghost use Rattle.std.specs.Prelude.{◌≡◌, ◌==◌, ◌∷◌, ◌++◌, ◌+◌, ◌&&◌, not, [], length, ◌<◌, ◌≤◌, ℕ, true, false, Some, None, MatchOption};
ghost use Rattle.std.specs.Vec.{vec_capacity};
ghost use Rattle.run_types.specs.declared.run.Event.TheVariants.{CheckIn, Decide, Move};
ghost use Rattle.source_model.specs.Guards.{Guard, Setup, first_guard, has_ended};
ghost use Rattle.source_model.specs.Schedules.{due, first_act, slots_after};
ghost use Rattle.source_model.specs.Endings.{is_stuck as stuck_at};
ghost use Rattle.effects.specs.Rows.{AreRows};
ghost use Rattle.source_model.specs.Guards.{Rules};
ghost use Rattle.source_model.specs.Journals.{guard_after};
ghost use Rattle.dsu_runs.specs.Engines.{GoesAt};
ghost use Rattle.dsu_runs.specs.Turns.{IsQuiet, Keeps, Turned, next_within, offer_or_act};
ghost use Rattle.dsu_runs.specs.Solo.{RanSolo};
ghost use Rattle.dsu_runs.specs.Finishes.{Finishes, IsLive};

use crate::ending::is_stuck;
use crate::running::{Running, Step, keep};
use crate::{Engine, Live, Ran, StopCause, Turn};
use run_types::Event;
use source_model::{seats_fit_their_slots, solo_schedule_goes_to_the_end};
use std::alloc::Global;

/// A run by the solo schedule on its way.
#[derive(Drop)]
pub(crate) struct SoloRun<E> {
    running: Running<E>,
    /// The slot whose thread acted last.
    last: Option<u8>,
    /// How many moves may still be made.
    left: u32,
    /// Whether only a thread's event can be next, so that nothing has to be asked before it: the run goes on, no offer is open
    /// or due, and a move is left.
    quiet: bool,
}

/// Makes the events of the solo schedule until the run has ended: it finished or trapped; it is stuck, and no offer is open
/// or due; or it isn't stuck, and so many moves were made. An offer that can't be decided is withdrawn.
pub fn solo<E: Engine>(alloc: Global, engine: E, moves: u32) -> Ran<E>
    ensures ran { E.asks engine → (setup : Setup) → E.is_at setup (first_guard setup) engine
        → RanSolo setup (E.is_at setup) E.told E.faults engine moves result }
    ensures asked { E.asks engine → E.asks result.engine }
{
    finish(Live {
        engine,
        history: Vec::new(alloc),
        last: None,
        left: moves,
    })
}

/// Goes on with a run by the solo schedule until it has ended, wherever its events so far have come to. Where there is no room
/// for the further events, and none can be had, none is made.
pub fn finish<E: Engine>(live: Live<E>) -> Ran<E>
    ensures ran { E.asks live.engine → (setup : Setup) (start : Guard) → IsLive setup (E.is_at setup) start live
        → Finishes setup (E.is_at setup) E.told E.faults start live result }
    ensures asked { E.asks live.engine → E.asks result.engine }
{
    seats_fit_their_slots();
    solo_schedule_goes_to_the_end();
    let Live {
        engine,
        mut history,
        last,
        left,
    } = live;
    // A check-in comes only after a move that led to it, but for those that stand; an offer is opened and closed once.
    let most = 2 * left as usize + 2 * engine.offers() as usize + engine.slots() as usize + 1;
    let Ok(_room) = history.reserve(most) else {
        return Ran {
            engine,
            history,
            cause: StopCause::Memory,
        };
    };
    let mut solo = SoloRun {
        running: Running { engine, history },
        last,
        left,
        quiet: false,
    };
    for _turn in 0..most {
        match solo.turn() {
            Step::Done => {}
            // An offer is withdrawn where its decision isn't made, so a turn comes to nothing only where no event is next.
            Step::CannotHappen | Step::Misused | Step::UndefinedName => return solo.running.end(),
            Step::SinkFailed => return solo.running.stop(StopCause::SinkFailed),
            Step::Memory => return solo.running.stop(StopCause::Memory),
        }
    }
    solo.running.end()
}

impl<E: Engine> SoloRun<E> {
    /// The next event of a run that hasn't ended. Without a move left a run goes on only where it is stuck: its offers are
    /// still answered.
    #[inline(always)]
    fn turn(&mut self) -> Step
        requires room { length self.old.running.history.items < vec_capacity self.old.running.history }
        requires left { self.old.quiet ≡ true → 0 < self.old.left }
        ensures turned { E.asks self.old.running.engine → (setup : Setup) (g : Guard) → E.is_at setup g self.old.running.engine
            → length g.seats ≡ length g.world.slots → (self.old.quiet ≡ true → IsQuiet setup g self.old.left)
            → Turned (E.is_at setup) E.told setup g (next_within setup g self.old.last self.old.left) self.old self.new result }
        ensures kept { Keeps E.faults self.old self.new result }
        ensures asked { E.asks self.old.running.engine → E.asks self.new.running.engine }
        ensures left { self.new.quiet ≡ true → 0 < self.new.left }
    {
        match self.others_turn() {
            Some(step) => step,
            None => self.act(),
        }
    }

    /// What a turn comes to in which no thread's event is next; none where only that can be.
    #[inline(always)]
    fn others_turn(&mut self) -> Option<Step>
        requires room { length self.old.running.history.items < vec_capacity self.old.running.history }
        requires left { self.old.quiet ≡ true → 0 < self.old.left }
        ensures turned { E.asks self.old.running.engine → (setup : Setup) (g : Guard) → E.is_at setup g self.old.running.engine
            → length g.seats ≡ length g.world.slots → (self.old.quiet ≡ true → IsQuiet setup g self.old.left)
            → MatchOption result (IsQuiet setup g self.old.left) (Turned (E.is_at setup) E.told setup g
            (next_within setup g self.old.last self.old.left) self.old self.new) }
        ensures kept { MatchOption result (self.new ≡ record self.old { quiet = true }) (Keeps E.faults self.old self.new) }
        ensures asked { E.asks self.old.running.engine → E.asks self.new.running.engine }
        ensures left { MatchOption result (0 < self.old.left) (λ step. self.new.quiet ≡ false) }
    {
        if self.quiet {
            return None;
        }
        self.ask()
    }

    /// The same, where what is next isn't known.
    #[cold]
    #[inline(never)]
    fn ask(&mut self) -> Option<Step>
        requires room { length self.old.running.history.items < vec_capacity self.old.running.history }
        requires unknown { self.old.quiet ≡ false }
        ensures turned { E.asks self.old.running.engine → (setup : Setup) (g : Guard) → E.is_at setup g self.old.running.engine
            → length g.seats ≡ length g.world.slots → MatchOption result (IsQuiet setup g self.old.left) (Turned (E.is_at setup)
            E.told setup g (next_within setup g self.old.last self.old.left) self.old self.new) }
        ensures kept { MatchOption result (self.new ≡ record self.old { quiet = true }) (Keeps E.faults self.old self.new) }
        ensures asked { E.asks self.old.running.engine → E.asks self.new.running.engine }
        ensures left { MatchOption result (0 < self.old.left) (λ step. self.new.quiet ≡ false) }
    {
        if self.running.engine.finish().is_some() {
            return Some(Step::CannotHappen);
        }
        if self.is_used_up() {
            return Some(Step::CannotHappen);
        }
        match self.running.engine.open() {
            Some(k) => Some(self.close(k)),
            None => self.open_due(),
        }
    }

    /// Whether no move is left in a run that isn't stuck.
    fn is_used_up(&self) -> bool
        ensures { E.asks self.now.running.engine → (setup : Setup) (g : Guard) → E.is_at setup g self.now.running.engine
            → has_ended g ≡ false → length g.seats ≡ length g.world.slots → result ≡ (self.now.left == 0 && not (stuck_at g)) }
    {
        if self.left != 0 {
            return false;
        }
        !is_stuck(&self.running.engine)
    }

    /// Decides the open offer. Where the decision can't be made, or isn't, it withdraws the offer.
    fn close(&mut self, k: u8) -> Step
        requires room { length self.old.running.history.items < vec_capacity self.old.running.history }
        requires unknown { self.old.quiet ≡ false }
        ensures turned { (setup : Setup) (g : Guard) → E.is_at setup g self.old.running.engine → has_ended g ≡ false
            → g.open_offer ≡ Some k → Turned (E.is_at setup) E.told setup g (Some (Decide k)) self.old self.new result }
        ensures kept { Keeps E.faults self.old self.new result }
        ensures asked { E.asks self.old.running.engine → E.asks self.new.running.engine }
        ensures unknown { self.new.quiet ≡ false }
    {
        match self.running.make(Event::Decide(k)) {
            Step::CannotHappen | Step::Memory | Step::Misused | Step::UndefinedName => {
                self.running.make(Event::Withdraw(k))
            }
            step => step,
        }
    }

    /// Opens the offer that is due, if one is. If none is, and no move is left, nothing is next.
    fn open_due(&mut self) -> Option<Step>
        requires room { length self.old.running.history.items < vec_capacity self.old.running.history }
        requires unknown { self.old.quiet ≡ false }
        ensures turned { (setup : Setup) (g : Guard) → GoesAt (E.is_at setup) g self.old.running.engine
            → MatchOption result (IsQuiet setup g self.old.left) (Turned (E.is_at setup) E.told setup g
            (offer_or_act setup g self.old.last self.old.left) self.old self.new) }
        ensures kept { MatchOption result (self.new ≡ record self.old { quiet = true }) (Keeps E.faults self.old self.new) }
        ensures asked { E.asks self.old.running.engine → E.asks self.new.running.engine }
        ensures left { MatchOption result (0 < self.old.left) (λ step. self.new.quiet ≡ false) }
    {
        match self.running.engine.due() {
            Some(k) => Some(self.running.make(Event::Offer(k))),
            None => {
                if self.left == 0 {
                    return Some(Step::CannotHappen);
                }
                self.quiet = true;
                None
            }
        }
    }

    /// The first of the slots in order after the one that acted last acts, if one can.
    #[inline(always)]
    fn act(&mut self) -> Step
        requires left { 0 < self.old.left }
        requires room { length self.old.running.history.items < vec_capacity self.old.running.history }
        ensures turned { E.asks self.old.running.engine → (setup : Setup) (g : Guard)
            → GoesAt (E.is_at setup) g self.old.running.engine → due setup g ≡ None
            → Turned (E.is_at setup) E.told setup g (first_act g (slots_after (length g.seats) self.old.last))
            self.old self.new result }
        ensures kept { Keeps E.faults self.old self.new result }
        ensures asked { E.asks self.old.running.engine → E.asks self.new.running.engine }
        ensures left { self.new.quiet ≡ true → 0 < self.new.left }
    {
        match self.running.engine.act_next(self.last) {
            Ok(Turn::Moved(slot)) => {
                self.moved(slot);
                Step::Done
            }
            Ok(Turn::CheckedIn(slot)) => {
                self.checked_in(slot);
                Step::Done
            }
            Ok(Turn::Changed(slot)) => {
                self.moved(slot);
                self.quiet = false;
                Step::Done
            }
            Ok(Turn::SinkFailed(slot)) => {
                self.moved(slot);
                Step::SinkFailed
            }
            Ok(Turn::NoneActs) => Step::CannotHappen,
            Err(_) => Step::Memory,
        }
    }

    /// Keeps that the thread in a slot moved.
    #[inline(always)]
    fn moved(&mut self, slot: u8)
        requires left { 0 < self.old.left }
        requires room { length self.old.running.history.items < vec_capacity self.old.running.history }
        ensures engine { self.new.running.engine ≡ self.old.running.engine }
        ensures history { self.new.running.history.items ≡ self.old.running.history.items ++ Move slot ∷ [] }
        ensures room { vec_capacity self.old.running.history ≤ vec_capacity self.new.running.history }
        ensures last { self.new.last ≡ Some slot }
        ensures fewer { self.new.left + 1 ≡ self.old.left }
        ensures left { self.new.quiet ≡ true → 0 < self.new.left }
    {
        keep(&mut self.running.history, Event::Move(slot));
        self.last = Some(slot);
        self.left -= 1;
        if self.left == 0 {
            self.quiet = false;
        }
    }

    /// Keeps that the thread in a slot passed its check-in.
    #[inline(always)]
    fn checked_in(&mut self, slot: u8)
        requires room { length self.old.running.history.items < vec_capacity self.old.running.history }
        ensures engine { self.new.running.engine ≡ self.old.running.engine }
        ensures history { self.new.running.history.items ≡ self.old.running.history.items ++ CheckIn slot ∷ [] }
        ensures room { vec_capacity self.old.running.history ≤ vec_capacity self.new.running.history }
        ensures last { self.new.last ≡ Some slot }
        ensures left { self.new.left ≡ self.old.left }
        ensures quiet { self.new.quiet ≡ self.old.quiet }
    {
        keep(&mut self.running.history, Event::CheckIn(slot));
        self.last = Some(slot);
    }
}
