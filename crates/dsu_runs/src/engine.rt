ghost use Rattle.std.specs.Prelude.{◌≡◌, ◌≢◌, ◌≤◌, ◌&&◌, not, List, Option, option_map, ℕ, false, true, length, map, IfOk, Ok, Err, OnErr};
ghost use Rattle.dsu_io.specs.Causes.{Rose};
ghost use Rattle.run_types.specs.declared.run.Event.TheVariants.{Move, CheckIn, Offer, Decide, Withdraw};
ghost use Rattle.source_model.specs.Answers.{answer_seen};
ghost use Rattle.source_model.specs.Guards.{Guard, Setup, can_open, has_ended};
ghost use Rattle.source_model.specs.Journals.{answers};
ghost use Rattle.source_model.specs.Schedules.{due, first_act, slots_after};
ghost use Rattle.dsu_runs.specs.Engines.{GoesAt, MakesAt, TurnsTo, finish_of, standing_of, waiting_of, waits_in};
ghost use Rattle.dsu_runs.specs.UndefinedNames.{UsesUndefined};

use name_sets::Names;
use run_types::{Ending, Event};
use source_model::OfferAnswer;
use std::alloc::AllocError;

/// What came of an event that an engine was asked to make.
#[derive(Clone, Copy, Debug, PartialEq, Eq)]
pub enum Made {
    /// It was made.
    Done,
    /// It can't happen, and nothing changed.
    CannotHappen,
    /// It was made and printed something, but not all of that could be written. The engine makes no further event.
    SinkFailed,
}

/// What came of a turn, in which one thread acts if one can.
#[derive(Clone, Copy, Debug, PartialEq, Eq)]
pub enum Turn {
    /// The thread in that slot moved, which printed nothing, and the run goes on. So no offer became due.
    Moved(u8),
    /// The thread in that slot passed its check-in.
    CheckedIn(u8),
    /// The thread in that slot moved. It may have printed something, and the run may have ended.
    Changed(u8),
    /// The thread in that slot moved and printed something, but not all of that could be written. The engine makes no further
    /// event.
    SinkFailed(u8),
    /// No thread can act, and nothing changed.
    NoneActs,
}

/// Why an open offer isn't decided.
#[derive(Clone, Copy, Debug, PartialEq, Eq)]
pub enum Undecided {
    /// Out of memory.
    Memory,
    /// A definition was misused, so no thread moves any more. No run of accepted texts comes there.
    Misused,
    /// A function of the offer's text uses a name that this text doesn't define. No accepted text has one.
    UndefinedName,
}

impl From<AllocError> for Undecided {
    ghost use Rattle.std.specs.Prelude.{◌≡◌};
    ghost use Rattle.dsu_runs.specs.declared.engine.Undecided.TheVariants.{Memory};

    ghost from_gives = { λ _ why. why ≡ Memory };

    fn from(_: AllocError) -> Undecided {
        Undecided::Memory
    }
}

/// How the thread in a slot stands.
#[derive(Clone, Copy, Debug, PartialEq, Eq)]
pub enum Stands {
    NoThread,
    AtCheckIn,
    Going,
}

/// What a thread waits for.
#[derive(Clone, Copy, Debug, PartialEq, Eq)]
pub enum Waiting<'a> {
    /// The mutex of that name, which the thread in that slot holds.
    Mutex(&'a str, usize),
    /// The end of the thread in that slot.
    Thread(usize),
}

/// What makes the events of a run. It is at a guard, which says all of the run; what it prints goes to a sink.
pub trait Engine {
    /// Whether the engine is at a guard of the run of a setup. It keeps no more than the run needs, so neither is a
    /// function of it.
    ghost is_at: { Setup → Guard → Self → Type 0 };

    /// The bytes that its sink shows, where the sink shows them.
    ghost told: { Self → Option (List ℕ) };

    /// How many faults its sink has counted.
    ghost faults: { Self → ℕ };

    /// The texts for which the ids in its answers stand.
    ghost table: { Self → List (List ℕ) };

    /// No thread has private work to do, so each can be asked what it does next. An engine may leave the work that follows a
    /// move for later: it is at the same guard then.
    ghost asks: { Self → Type 0 };

    /// How many slots there are.
    fn slots(&self) -> u8
        ensures { (setup : Setup) (g : Guard) → is_at setup g self.now → result ≡ length g.seats };

    /// How the thread in a slot stands, in a run that hasn't ended.
    fn stands(&self, slot: u8) -> Stands
        ensures { (setup : Setup) (g : Guard) → is_at setup g self.now → has_ended g ≡ false → result ≡ standing_of g slot };

    /// How the run has ended, if `main` returned or a thread trapped.
    fn finish(&self) -> Option<Ending>
        ensures { (setup : Setup) (g : Guard) → is_at setup g self.now → result ≡ finish_of g.world.finish };

    /// What the threads do next: of the slots in cyclic order after the one that acted last, the first one whose thread can act
    /// passes its check-in, or makes its move. Slot 0 is the first at the start. It is asked of a run that hasn't ended.
    fn next_act(&self, last: Option<u8>) -> Option<Event>
        ensures { asks self.now → (setup : Setup) (g : Guard) → is_at setup g self.now → has_ended g ≡ false
            → length g.seats ≡ length g.world.slots → result ≡ first_act g (slots_after (length g.seats) last) };

    /// What the thread in a slot waits for. In a run that is over none waits.
    fn waits(&self, slot: u8) -> Option<Waiting<'_>>
        ensures { asks self.now → (setup : Setup) (g : Guard) → is_at setup g self.now → option_map waiting_of result ≡ waits_in g.world slot };

    /// Makes the move of the thread in a slot. Out of memory: nothing was printed, and nothing else is known of the engine.
    fn act(&mut self, slot: u8) -> Result<Made, AllocError>
        ensures made { (setup : Setup) (g : Guard) → is_at setup g self.old → IfOk result
            (MakesAt (λ x. is_at setup x self.new) setup (Move slot) g (told self.old) (told self.new)) }
        ensures silent { OnErr result (told self.new ≡ told self.old) }
        ensures asked { asks self.old → asks self.new }
        ensures later { faults self.old ≤ faults self.new }
        ensures cause { result ≡ Ok Made.SinkFailed → Rose (faults self.old) (faults self.new) };

    /// Lets the thread in a slot pass the check-in that it is at. Nothing is printed.
    fn check_in(&mut self, slot: u8) -> Made
        ensures made { (setup : Setup) (g : Guard) → is_at setup g self.old
            → MakesAt (λ x. is_at setup x self.new) setup (CheckIn slot) g (told self.old) (told self.new) result }
        ensures asked { asks self.old → asks self.new }
        ensures later { faults self.old ≤ faults self.new }
        ensures written { result ≢ Made.SinkFailed };

    /// Makes the event that `next_act` names, if there is one. It is asked of a run that hasn't ended in which no offer is open.
    /// It is what a run does at almost all of its turns, so it asks no thread twice, and its answer says whether a schedule has
    /// anything to ask before the next turn. Out of memory: nothing was printed, and nothing else is known of the engine.
    fn act_next(&mut self, last: Option<u8>) -> Result<Turn, AllocError>
        ensures turned { asks self.old → (setup : Setup) (g : Guard) → GoesAt (is_at setup) g self.old → IfOk result
            (TurnsTo (λ x. is_at setup x self.new) setup (first_act g (slots_after (length g.seats) last)) g
            (told self.old) (told self.new)) }
        ensures silent { OnErr result (told self.new ≡ told self.old) }
        ensures asked { asks self.old → asks self.new }
        ensures later { faults self.old ≤ faults self.new }
        ensures cause { (slot : ℕ) → result ≡ Ok (Turn.SinkFailed slot) → Rose (faults self.old) (faults self.new) };

    /// How many offers there are. Offers are numbered from 1.
    fn offers(&self) -> u8
        ensures { (setup : Setup) (g : Guard) → is_at setup g self.now → result ≡ length setup.offers };

    /// The offer that is due.
    fn due(&self) -> Option<u8>
        ensures { (setup : Setup) (g : Guard) → is_at setup g self.now → result ≡ due setup g };

    /// The open offer.
    fn open(&self) -> Option<u8>
        ensures { (setup : Setup) (g : Guard) → is_at setup g self.now → result ≡ g.open_offer };

    /// Whether an offer can be opened.
    fn may_offer(&self, k: u8) -> bool
        ensures { (setup : Setup) (g : Guard) → is_at setup g self.now → result ≡ (not (has_ended g) && can_open setup g k) };

    /// Opens an offer. Nothing is printed.
    fn offer(&mut self, k: u8) -> Made
        ensures made { (setup : Setup) (g : Guard) → is_at setup g self.old
            → MakesAt (λ x. is_at setup x self.new) setup (Offer k) g (told self.old) (told self.new) result }
        ensures asked { asks self.old → asks self.new }
        ensures later { faults self.old ≤ faults self.new }
        ensures written { result ≢ Made.SinkFailed };

    /// Decides the open offer: it is installed, refused, or no patch. Nothing is printed. Where it isn't decided nothing
    /// changed, and the offer is still open.
    fn decide(&mut self, k: u8) -> Result<Made, Undecided>
        ensures made { (setup : Setup) (g : Guard) → is_at setup g self.old → IfOk result
            (MakesAt (λ x. is_at setup x self.new) setup (Decide k) g (told self.old) (told self.new)) }
        ensures stays { OnErr result ((setup : Setup) (g : Guard) → is_at setup g self.old → is_at setup g self.new) }
        ensures silent { OnErr result (told self.new ≡ told self.old) }
        ensures asked { asks self.old → asks self.new }
        ensures later { faults self.old ≤ faults self.new }
        ensures written { result ≢ Ok Made.SinkFailed }
        ensures misused { result ≡ Err Undecided.Misused → (setup : Setup) (g : Guard) → is_at setup g self.old
            → g.world.misused ≡ true }
        ensures undefined { result ≡ Err Undecided.UndefinedName → (setup : Setup) (g : Guard) → is_at setup g self.old
            → UsesUndefined setup k };

    /// Closes the open offer with nothing changed. Nothing is printed.
    fn withdraw(&mut self, k: u8) -> Made
        ensures made { (setup : Setup) (g : Guard) → is_at setup g self.old
            → MakesAt (λ x. is_at setup x self.new) setup (Withdraw k) g (told self.old) (told self.new) result }
        ensures asked { asks self.old → asks self.new }
        ensures later { faults self.old ≤ faults self.new }
        ensures written { result ≢ Made.SinkFailed };

    /// The answers to the offers, in the order of the offers. Their ids stand for the texts of `names`.
    fn answers(&self) -> &[OfferAnswer]
        ensures { (setup : Setup) (g : Guard) → is_at setup g self.now
            → map (answer_seen (table self.now)) result.now ≡ answers setup g };

    /// The texts for which the ids in the answers stand.
    fn names(&self) -> &Names
        ensures { result.now ≡ table self.now };
}
