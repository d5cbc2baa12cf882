ghost use Rattle.std.specs.Prelude.{◌≡◌, ◌+◌, ◌<◌, ◌≤◌, [], ◌∷◌, ◌++◌, ℕ, List, true, false, None, length};
ghost use Rattle.std.specs.Vec.{vec_capacity};
ghost use Rattle.source_model.specs.Guards.{Guard, Setup, has_ended};
ghost use Rattle.source_model.specs.Schedules.{due, move_count};
ghost use Rattle.source_model.specs.Endings.{is_stuck as stuck_at};
ghost use Rattle.pass_lock.specs.Histories.{Adds};
ghost use Rattle.run_types.specs.declared.run.Event.TheVariants.{Decide};
ghost use Rattle.dsu_runs.specs.Engines.{Makes, standing_of};
ghost use Rattle.dsu_runs.specs.declared.engine.Stands.TheVariants.{AtCheckIn};
ghost use Rattle.threaded_vm.specs.declared.notes.Note.{Note};
ghost use Rattle.threaded_vm.specs.Opened.{GoesOn, HasRoom, IsARun};
ghost use Rattle.threaded_vm.specs.Locked.{EndsBy, IsInCourse, IsOverBy, events, log_of};
ghost use Rattle.threaded_vm.specs.Turns.{Answered, Enters, IsOver, Says, SaysOf, Surely};

use crate::{Course, Load, Look, Noted, Opening, Preparing};
use dsu_runs::{Ahead, Live, Made, Ran, Stands, StopCause};
use run_types::{Ending, Event};
use source_model::seats_fit_their_slots;
use std::alloc::Global;
use std::marker::{Model, PhantomData};

/// The value under the lock: the engine, the events since the workers began, and whether the run is over.
#[derive(Drop)]
pub struct Shared<E: Ahead, O: Opening> {
    engine: E,
    noted: Vec<Noted>,
    /// How many moves may still be made.
    left: u32,
    course: Course,
    of: PhantomData<O>,
}

impl<E: Ahead, O: Opening> Model for Shared<E, O> {
    ghost use Rattle.std.specs.Prelude.{◌≤◌};
    ghost use Rattle.std.specs.Vec.{vec_capacity};
    ghost use Rattle.threaded_vm.specs.Locked.{Kept, Locked};

    ghost Value = { Locked E };

    ghost view = { λ s. record { engine = s.engine; noted = s.noted.items; left = s.left; course = s.course } };

    ghost invariant = { λ s. Kept E.is_at E.told E.faults O.opened (record { engine = s.engine; noted = s.noted.items; left = s.left; course = s.course }) × (O.opened.room ≤ vec_capacity s.noted) };
}

impl<E: Ahead, O: Opening> Shared<E, O> {
    /// The value before any event of the workers.
    pub(crate) fn new(engine: E, noted: Vec<Noted>, left: u32) -> Shared<E, O>
        requires none { noted.items ≡ [] }
        requires room { O.opened.room ≤ vec_capacity noted }
        requires enough { (setup : Setup) (first : Guard) → O.opened.at setup first → HasRoom O.opened setup first }
        requires left { left ≡ O.opened.left }
        requires run { IsARun O.opened }
        requires begun { (setup : Setup) (g : Guard) → O.opened.at setup g → GoesOn E.is_at setup g O.opened.history engine }
        requires told { E.told engine ≡ O.opened.told }
        requires faults { E.faults engine ≡ O.opened.faults }
        ensures { result ≡ record { engine = engine; noted = []; left = left; course = Course.Going } }
    {
        Shared {
            engine,
            noted,
            left,
            course: Course::Going,
            of: PhantomData,
        }
    }

    /// One turn of a slot's own pass.
    pub(crate) fn turn(&mut self, slot: u8, load: &mut Load<E, O>) -> Look
        ensures own { Enters slot result (log_of self.old) (log_of self.new) }
        ensures says { Says O.opened slot (log_of self.new) result }
    {
        match self.course {
            Course::Going => self.go_on(slot, load),
            Course::Failing => {
                self.end(slot, StopCause::SinkFailed);
                Look::Ended
            }
            Course::Over(_, _) => Look::Ended,
        }
    }

    // A turn in a run that isn't known to have ended.
    fn go_on(&mut self, slot: u8, load: &mut Load<E, O>) -> Look
        requires going { self.old.course ≡ Course.Going }
        ensures own { Enters slot result (log_of self.old) (log_of self.new) }
        ensures says { SaysOf O.opened slot (events self.new.noted) (IsOver (log_of self.new)) result }
    {
        if let Some(ending) = self.engine.finish() {
            self.end(slot, StopCause::Ended(ending));
            return Look::Ended;
        }
        if self.left == 0 {
            return self.without_moves(slot);
        }
        match self.engine.due() {
            Some(k) => Look::Due(k),
            None => self.act(slot, load),
        }
    }

    // A turn in a run without a move left: it has ended where a thread could act, and where no offer is open or due.
    fn without_moves(&mut self, slot: u8) -> Look
        requires going { self.old.course ≡ Course.Going }
        requires left { self.old.left ≡ 0 }
        requires unfinished { Surely O.opened (events self.old.noted) (λ setup g. has_ended g ≡ false) }
        ensures own { Enters slot result (log_of self.old) (log_of self.new) }
        ensures says { SaysOf O.opened slot (events self.new.noted) (IsOver (log_of self.new)) result }
    {
        seats_fit_their_slots();
        self.engine.settle();
        if self.engine.next_act(None).is_some() {
            self.end(slot, StopCause::Ended(Ending::Cut));
            return Look::Ended;
        }
        if let Some(k) = self.engine.due() {
            return Look::Due(k);
        }
        if self.engine.open().is_some() {
            return Look::Closing;
        }
        self.end(slot, StopCause::Ended(Ending::Deadlock));
        Look::Ended
    }

    // A turn in a run that goes on, where no offer is due.
    fn act(&mut self, slot: u8, load: &mut Load<E, O>) -> Look
        requires going { self.old.course ≡ Course.Going }
        requires left { 0 < self.old.left }
        requires unfinished { Surely O.opened (events self.old.noted) (λ setup g. has_ended g ≡ false) }
        requires none_due { Surely O.opened (events self.old.noted) (λ setup g. due setup g ≡ None) }
        ensures own { Enters slot result (log_of self.old) (log_of self.new) }
        ensures says { SaysOf O.opened slot (events self.new.noted) (IsOver (log_of self.new)) result }
    {
        match self.engine.stands(slot) {
            Stands::AtCheckIn => self.check_in(slot),
            Stands::Going => self.move_or_rest(slot, load),
            Stands::NoThread => self.rest(slot, Look::Idle),
        }
    }

    // The thread in a slot makes its move. Where it waits, the run may be over.
    fn move_or_rest(&mut self, slot: u8, load: &mut Load<E, O>) -> Look
        requires going { self.old.course ≡ Course.Going }
        requires left { 0 < self.old.left }
        requires unfinished { Surely O.opened (events self.old.noted) (λ setup g. has_ended g ≡ false) }
        requires none_due { Surely O.opened (events self.old.noted) (λ setup g. due setup g ≡ None) }
        ensures own { Enters slot result (log_of self.old) (log_of self.new) }
        ensures says { SaysOf O.opened slot (events self.new.noted) (IsOver (log_of self.new)) result }
    {
        let look = self.make_move(slot, load);
        if look == Look::Waits {
            return self.rest(slot, look);
        }
        look
    }

    // The thread in a slot passes the check-in that it is at, if it can.
    fn check_in(&mut self, slot: u8) -> Look
        requires going { self.old.course ≡ Course.Going }
        requires at { Surely O.opened (events self.old.noted) (λ setup g. standing_of g slot ≡ AtCheckIn) }
        ensures own { Enters slot result (log_of self.old) (log_of self.new) }
        ensures says { SaysOf O.opened slot (events self.new.noted) (IsOver (log_of self.new)) result }
    {
        match self.engine.check_in(slot) {
            Made::Done => {
                keep(&mut self.noted, slot, Event::CheckIn(slot));
                Look::CheckedIn
            }
            Made::CannotHappen | Made::SinkFailed => Look::Held,
        }
    }

    // The thread in a slot makes its move, if it can. The private work that follows it is left due, and copied.
    fn make_move(&mut self, slot: u8, load: &mut Load<E, O>) -> Look
        requires going { self.old.course ≡ Course.Going }
        requires left { 0 < self.old.left }
        requires none_due { Surely O.opened (events self.old.noted) (λ setup g. due setup g ≡ None) }
        ensures own { Enters slot result (log_of self.old) (log_of self.new) }
        ensures says { SaysOf O.opened slot (events self.new.noted) (IsOver (log_of self.new)) result }
        ensures waits { result ≡ Look.Waits → (self.new.course ≡ Course.Going) × (self.new.noted ≡ self.old.noted) }
    {
        self.engine.take_back(slot, load.work());
        self.engine.leave_work();
        match self.engine.act(slot) {
            Ok(Made::Done) => {
                keep(&mut self.noted, slot, Event::Move(slot));
                self.left -= 1;
                load.hand_out(&self.engine, slot);
                Look::Moved
            }
            Ok(Made::CannotHappen) => Look::Waits,
            Ok(Made::SinkFailed) => {
                keep(&mut self.noted, slot, Event::Move(slot));
                self.left -= 1;
                self.course = Course::Failing;
                Look::Moved
            }
            Err(_) => {
                self.course = Course::Over(slot, StopCause::Memory);
                Look::Ended
            }
        }
    }

    // The answer of a turn that added nothing, if the run isn't over: it is where it is stuck and no offer is open. None is due.
    // Where private work is due it isn't known yet, and the turn that takes that work back finds it.
    fn rest(&mut self, slot: u8, look: Look) -> Look
        requires going { self.old.course ≡ Course.Going }
        requires unfinished { Surely O.opened (events self.old.noted) (λ setup g. has_ended g ≡ false) }
        requires none_due { Surely O.opened (events self.old.noted) (λ setup g. due setup g ≡ None) }
        requires quiet { Answered slot look [] }
        requires says { SaysOf O.opened slot (events self.old.noted) ⊥ look }
        ensures own { Enters slot result (log_of self.old) (log_of self.new) }
        ensures says { SaysOf O.opened slot (events self.new.noted) (IsOver (log_of self.new)) result }
    {
        seats_fit_their_slots();
        if is_stuck(&mut self.engine) {
            self.end(slot, StopCause::Ended(Ending::Deadlock));
            return Look::Ended;
        }
        look
    }

    /// Opens the offer that is due, if one still is, with what prepares its decision.
    pub(crate) fn open_due(
        &mut self,
        alloc: Global,
        pass: u8,
    ) -> Option<(u8, Option<Preparing<E, O>>)>
        ensures { (added : List Note) × Adds pass (log_of self.old) added (log_of self.new) }
    {
        if !self.goes_on() {
            return None;
        }
        let k = self.engine.due()?;
        if self.open(pass, k) {
            return Some((k, self.preparing(alloc, k)));
        }
        None
    }

    // What prepares the decision on the open offer, if it can be prepared elsewhere.
    fn preparing(&self, alloc: Global, k: u8) -> Option<Preparing<E, O>>
        requires going { self.now.course ≡ Course.Going }
    {
        Some(Preparing::new(self.engine.preparation(alloc, k)?))
    }

    // Opens an offer, if it can be opened.
    fn open(&mut self, pass: u8, k: u8) -> bool
        requires going { self.old.course ≡ Course.Going }
        ensures own { (added : List Note) × Adds pass (log_of self.old) added (log_of self.new) }
        ensures going { result ≡ true → self.new.course ≡ Course.Going }
    {
        match self.engine.offer(k) {
            Made::Done => {
                keep(&mut self.noted, pass, Event::Offer(k));
                true
            }
            Made::CannotHappen | Made::SinkFailed => false,
        }
    }

    /// Decides the open offer. Where the decision can't be made, or isn't, it withdraws the offer.
    pub(crate) fn close(&mut self, pass: u8, k: u8, preparing: Option<Preparing<E, O>>)
        ensures { (added : List Note) × Adds pass (log_of self.old) added (log_of self.new) }
    {
        if !self.goes_on() {
            return;
        }
        if !self.decide(pass, k, preparing) {
            self.withdraw(pass, k);
        }
    }

    // Whether the run goes on, and a move is left or no thread can act.
    fn goes_on(&mut self) -> bool
        ensures same { (self.new.noted ≡ self.old.noted) × (self.new.course ≡ self.old.course) }
        ensures going { result ≡ true → self.new.course ≡ Course.Going }
    {
        if self.course != Course::Going {
            return false;
        }
        if self.left != 0 {
            return true;
        }
        self.engine.settle();
        self.engine.next_act(None).is_none()
    }

    // Decides the open offer, if it can be decided.
    fn decide(&mut self, pass: u8, k: u8, preparing: Option<Preparing<E, O>>) -> bool
        requires going { self.old.course ≡ Course.Going }
        ensures done { result ≡ true → (added : List Note) × Adds pass (log_of self.old) added (log_of self.new) }
        ensures not { result ≡ false → (self.new.noted ≡ self.old.noted) × (self.new.course ≡ Course.Going) }
    {
        if decided(&mut self.engine, k, preparing) {
            keep(&mut self.noted, pass, Event::Decide(k));
            return true;
        }
        false
    }

    // Closes the open offer with nothing changed.
    fn withdraw(&mut self, pass: u8, k: u8)
        requires going { self.old.course ≡ Course.Going }
        ensures { (added : List Note) × Adds pass (log_of self.old) added (log_of self.new) }
    {
        match self.engine.withdraw(k) {
            Made::Done => keep(&mut self.noted, pass, Event::Withdraw(k)),
            Made::CannotHappen | Made::SinkFailed => {}
        }
    }

    /// Whether the run is over.
    pub(crate) fn is_over(&self) -> bool
        ensures { result ≡ true → IsOverBy self.now }
    {
        matches!(self.course, Course::Over(_, _))
    }

    /// The run as it was before the workers.
    pub(crate) fn into_live(self, history: Vec<Event>, last: Option<u8>) -> Live<E>
        ensures { result ≡ record { engine = self.engine; history = history; last = last; left = self.left } }
    {
        let Shared { engine, left, .. } = self;
        Live {
            engine,
            history,
            last,
            left,
        }
    }

    /// What the workers hand back of a run that is over. The events so far come first.
    pub(crate) fn into_ran(self, mut whole: Vec<Event>) -> Ran<E>
        requires over { IsOverBy self }
        requires room { length whole.items + O.opened.room ≤ vec_capacity whole }
        requires history { whole.items ≡ O.opened.history }
        ensures history { result.history.items ≡ O.opened.history ++ events self.noted }
        ensures most { move_count (events self.noted) ≤ O.opened.left }
        ensures later { O.opened.faults ≤ E.faults result.engine }
        ensures stopped { (setup : Setup) (first : Guard) → O.opened.at setup first
            → EndsBy E.is_at E.told E.faults setup first result.history.items O.opened.faults O.opened.told
            (move_count O.opened.history + O.opened.left) result.engine result.cause }
        ensures asked { E.asks result.engine }
    {
        let Shared {
            mut engine,
            noted,
            course,
            ..
        } = self;
        engine.settle();
        add_events(&mut whole, noted.as_slice());
        Ran {
            engine,
            history: whole,
            cause: cause_of(course),
        }
    }

    // Notes that the run is over.
    fn end(&mut self, pass: u8, cause: StopCause)
        requires { IsInCourse E.is_at E.told E.faults O.opened self.old (Course.Over pass cause) }
        ensures { self.new ≡ record self.old { course = Course.Over pass cause } }
    {
        self.course = Course::Over(pass, cause);
    }
}

// Whether it is known that no thread can act, and that no offer is open.
fn is_stuck<E: Ahead>(engine: &mut E) -> bool
    ensures stuck { result ≡ true → (setup : Setup) (g : Guard) → E.is_at setup g engine.new → has_ended g ≡ false
        → length g.seats ≡ length g.world.slots → (stuck_at g ≡ true) × (g.open_offer ≡ None) }
    ensures stays { (setup : Setup) (g : Guard) → E.is_at setup g engine.old → E.is_at setup g engine.new }
    ensures silent { E.told engine.new ≡ E.told engine.old }
    ensures later { E.faults engine.new ≡ E.faults engine.old }
{
    if engine.try_settle() {
        if engine.open().is_some() {
            return false;
        }
        return engine.next_act(None).is_none();
    }
    false
}

// Has an engine decide its open offer. False: it isn't decided, and the engine stands for the same.
fn decided<E: Ahead, O: Opening>(engine: &mut E, k: u8, preparing: Option<Preparing<E, O>>) -> bool
    ensures made { result ≡ true → (setup : Setup) (first g : Guard) → O.opened.at setup first → E.is_at setup g engine.old
        → Makes (λ x. E.is_at setup x engine.new) setup (Decide k) g (E.told engine.old) (E.told engine.new) }
    ensures stays { result ≡ false → (setup : Setup) (first g : Guard) → O.opened.at setup first → E.is_at setup g engine.old
        → E.is_at setup g engine.new × (E.told engine.new ≡ E.told engine.old) }
    ensures later { E.faults engine.old ≤ E.faults engine.new }
{
    let made = match preparing {
        Some(preparing) => engine.decide_prepared(k, preparing.into_preparation()),
        None => engine.decide(k),
    };
    match made {
        Ok(Made::Done) => true,
        Ok(_) | Err(_) => false,
    }
}

// Why a run that is over makes no further event.
fn cause_of(course: Course) -> StopCause
    ensures { (pass : ℕ) (cause : StopCause) → course ≡ Course.Over pass cause → result ≡ cause }
{
    match course {
        Course::Over(_, cause) => cause,
        Course::Going | Course::Failing => StopCause::Memory,
    }
}

// Adds events, for which there is room.
fn add_events(whole: &mut Vec<Event>, noted: &[Noted])
    requires { length whole.old.items + length noted.now ≤ vec_capacity whole.old }
    ensures { whole.new.items ≡ whole.old.items ++ events noted.now }
{
    for one in noted {
        whole.push_reserved(one.event);
    }
}

// Keeps an event, for which there is room.
fn keep(noted: &mut Vec<Noted>, pass: u8, event: Event)
    requires { length noted.old.items < vec_capacity noted.old }
    ensures items { noted.new.items ≡ noted.old.items ++ record { pass = pass; event = event } ∷ [] }
    ensures room { vec_capacity noted.old ≤ vec_capacity noted.new }
{
    noted.push_reserved(Noted { pass, event });
}
