//! The calls that change an engine, as the trait `Engine` has them, with what they say of memory: of an engine over a machine that
//! lasts so many moves, no move among these is out of memory, and no other call takes away from them.
ghost use Rattle.std.specs.Prelude.{◌≡◌, ◌≢◌, ◌==◌, ◌+◌, ◌^◌, ◌<◌, ◌≤◌, ◌++◌, ℕ, List, true, false, Some, None, count_by, length, IfOk, IsOk, OnErr, Ok, Err, if◌then◌else◌};
ghost use Rattle.dsu_io.specs.Causes.{Rose};
ghost use Rattle.run_types.specs.declared.run.Event.TheVariants.{Move, CheckIn, Offer, Decide, Withdraw};
ghost use Rattle.run_types.specs.declared.run.Event.{Event};
ghost use Rattle.source_model.specs.Guards.{Guard, Setup, has_ended, lines_written};
ghost use Rattle.source_model.specs.Schedules.{act_of, first_act, slots_after};
ghost use Rattle.dsu_runs.specs.Engines.{MakesAt, TurnsTo};
ghost use Rattle.dsu_runs.specs.UndefinedNames.{UsesUndefined};
ghost use Rattle.plain_engine.specs.Plain.{IsAt, IsRunAt, IsStateAt, IsTurnAfter, Wrote, lines_among, state_shown};

use crate::PlainEngine;
use dsu_io::{Sink, put};
use dsu_runs::{Made, Turn, Undecided};
use run_machine::Machine;
use run_types::Event;
use std::alloc::AllocError;

/// What came of an event that was made where it could be, and prints nothing.
pub(crate) fn made(done: bool) -> Made
    ensures { result ≡ (if done then Made.Done else Made.CannotHappen) }
{
    if done { Made::Done } else { Made::CannotHappen }
}

/// The sum of two numbers, where it is one.
fn sum(a: usize, b: usize) -> usize
    ensures { a + b < 2 ^ 64 → result ≡ a + b }
{
    a.saturating_add(b)
}

/// How many lines end in some bytes.
fn lines_in(bytes: &[u8]) -> usize
    ensures { result ≡ count_by (λ c. c == 10) bytes.now }
{
    let mut lines = 0usize;
    for byte in bytes {
        if *byte == b'\n' {
            lines += 1;
        }
    }
    lines
}

/// What a turn came to in which the thread in a slot was asked to pass its check-in.
#[inline(always)]
fn passed(slot: u8, made: Made) -> Turn
    ensures done { made ≡ Made.Done → result ≡ Turn.CheckedIn slot }
    ensures none { made ≡ Made.CannotHappen → result ≡ Turn.NoneActs }
    ensures written { (n : ℕ) → result ≢ Turn.SinkFailed n }
{
    match made {
        Made::Done => Turn::CheckedIn(slot),
        Made::CannotHappen | Made::SinkFailed => Turn::NoneActs,
    }
}

/// The slot of the thread that does what comes first of some slots.
fn slot_of(act: Event) -> u8
    ensures { (g : Guard) (slots : List ℕ) → first_act g slots ≡ Some act → act_of g result ≡ Some act }
{
    match act {
        Event::Move(slot) => slot,
        Event::CheckIn(slot) => slot,
        Event::Offer(k) => k,
        Event::Decide(k) => k,
        Event::Withdraw(k) => k,
    }
}

impl<M: Machine, S: Sink> PlainEngine<M, S> {
    /// Makes the move of the thread in a slot. Out of memory: nothing was printed, and nothing else is known of the engine. Over a
    /// machine that lasts so many moves, as many are made and none of them wants memory.
    #[inline(always)]
    pub fn act(&mut self, slot: u8) -> Result<Made, AllocError>
        ensures made { (setup : Setup) (g : Guard) → IsAt M.shown setup g self.old.state self.old.printed self.old.written → IfOk result
            (MakesAt (λ x. IsAt M.shown setup x self.new.state self.new.printed self.new.written) setup (Move slot) g
            (S.told self.old.sink) (S.told self.new.sink)) }
        ensures silent { OnErr result (S.told self.new.sink ≡ S.told self.old.sink) }
        ensures asked { M.asks self.old.state.run → M.asks self.new.state.run }
        ensures later { S.faults self.old.sink ≤ S.faults self.new.sink }
        ensures cause { result ≡ Ok Made.SinkFailed → Rose (S.faults self.old.sink) (S.faults self.new.sink) }
        ensures never_out_of_memory { (n : ℕ) → M.lasts (1 + n) self.old.state.run → IsOk result }
        ensures moved { (n : ℕ) → M.lasts (1 + n) self.old.state.run → result ≡ Ok Made.Done → M.lasts n self.new.state.run }
        ensures lasts { (n : ℕ) → M.lasts n self.old.state.run → result ≡ Ok Made.CannotHappen → M.lasts n self.new.state.run }
        ensures rested { result ≡ Ok Made.CannotHappen → S.told self.new.sink ≡ S.told self.old.sink }
    {
        let moved = self.state.make(slot)?;
        if !moved {
            return Ok(Made::CannotHappen);
        }
        Ok(self.write())
    }

    /// Lets the thread in a slot pass the check-in that it is at. Nothing is printed.
    #[inline(always)]
    pub fn check_in(&mut self, slot: u8) -> Made
        ensures made { (setup : Setup) (g : Guard) → IsAt M.shown setup g self.old.state self.old.printed self.old.written
            → MakesAt (λ x. IsAt M.shown setup x self.new.state self.new.printed self.new.written) setup (CheckIn slot) g
            (S.told self.old.sink) (S.told self.new.sink) result }
        ensures asked { M.asks self.old.state.run → M.asks self.new.state.run }
        ensures later { S.faults self.old.sink ≤ S.faults self.new.sink }
        ensures written { result ≢ Made.SinkFailed }
        ensures silent { S.told self.new.sink ≡ S.told self.old.sink }
        ensures lasts { (n : ℕ) → M.lasts n self.old.state.run → M.lasts n self.new.state.run }
    {
        made(self.state.pass(slot))
    }

    /// The threads act once: the first of the slots in order after the one that acted last whose thread can act passes its check-in,
    /// or makes its move. It is asked of a run that hasn't ended in which no offer is open. Out of memory: as `act`.
    #[inline(always)]
    pub fn act_next(&mut self, last: Option<u8>) -> Result<Turn, AllocError>
        ensures turned { M.asks self.old.state.run → (setup : Setup) (g : Guard)
            → IsAt M.shown setup g self.old.state self.old.printed self.old.written → has_ended g ≡ false → g.open_offer ≡ None
            → length g.seats ≡ length g.world.slots → IfOk result
            (TurnsTo (λ x. IsAt M.shown setup x self.new.state self.new.printed self.new.written) setup
            (first_act g (slots_after (length g.seats) last)) g (S.told self.old.sink) (S.told self.new.sink)) }
        ensures silent { OnErr result (S.told self.new.sink ≡ S.told self.old.sink) }
        ensures asked { M.asks self.old.state.run → M.asks self.new.state.run }
        ensures later { S.faults self.old.sink ≤ S.faults self.new.sink }
        ensures cause { (slot : ℕ) → result ≡ Ok (Turn.SinkFailed slot) → Rose (S.faults self.old.sink) (S.faults self.new.sink) }
        ensures never_out_of_memory { (n : ℕ) → M.lasts (1 + n) self.old.state.run → IsOk result }
    {
        match self.state.next_thread(last) {
            Some(slot) => self.act_from(slot, last),
            None => Ok(Turn::NoneActs),
        }
    }

    /// The same, where that is the first slot in turn in which a thread lives. Where it is the one that acted last, no other thread
    /// lives.
    #[inline(always)]
    fn act_from(&mut self, slot: u8, last: Option<u8>) -> Result<Turn, AllocError>
        ensures turned { M.asks self.old.state.run → (setup : Setup) (g : Guard)
            → IsAt M.shown setup g self.old.state self.old.printed self.old.written → has_ended g ≡ false → g.open_offer ≡ None
            → length g.seats ≡ length g.world.slots
            → ((act : Event) → act_of g slot ≡ Some act → first_act g (slots_after (length g.seats) last) ≡ Some act) → IfOk result
            (TurnsTo (λ x. IsAt M.shown setup x self.new.state self.new.printed self.new.written) setup
            (first_act g (slots_after (length g.seats) last)) g (S.told self.old.sink) (S.told self.new.sink)) }
        ensures silent { OnErr result (S.told self.new.sink ≡ S.told self.old.sink) }
        ensures asked { M.asks self.old.state.run → M.asks self.new.state.run }
        ensures later { S.faults self.old.sink ≤ S.faults self.new.sink }
        ensures cause { (slot : ℕ) → result ≡ Ok (Turn.SinkFailed slot) → Rose (S.faults self.old.sink) (S.faults self.new.sink) }
        ensures never_out_of_memory { (n : ℕ) → M.lasts (1 + n) self.old.state.run → IsOk result }
    {
        // Where other threads live, some may wait, and a try that fails costs more than a question.
        if last != Some(slot) {
            return self.others_act(last);
        }
        match self.act_in(slot)? {
            Turn::NoneActs => self.others_act(last),
            turn => Ok(turn),
        }
    }

    /// The same, where it is asked first which thread can act.
    #[inline(never)]
    fn others_act(&mut self, last: Option<u8>) -> Result<Turn, AllocError>
        ensures turned { M.asks self.old.state.run → (setup : Setup) (g : Guard)
            → IsAt M.shown setup g self.old.state self.old.printed self.old.written → has_ended g ≡ false → g.open_offer ≡ None
            → length g.seats ≡ length g.world.slots → IfOk result
            (TurnsTo (λ x. IsAt M.shown setup x self.new.state self.new.printed self.new.written) setup
            (first_act g (slots_after (length g.seats) last)) g (S.told self.old.sink) (S.told self.new.sink)) }
        ensures silent { OnErr result (S.told self.new.sink ≡ S.told self.old.sink) }
        ensures asked { M.asks self.old.state.run → M.asks self.new.state.run }
        ensures later { S.faults self.old.sink ≤ S.faults self.new.sink }
        ensures cause { (slot : ℕ) → result ≡ Ok (Turn.SinkFailed slot) → Rose (S.faults self.old.sink) (S.faults self.new.sink) }
        ensures never_out_of_memory { (n : ℕ) → M.lasts (1 + n) self.old.state.run → IsOk result }
    {
        match self.state.next_act(last) {
            Some(act) => self.act_in(slot_of(act)),
            None => Ok(Turn::NoneActs),
        }
    }

    /// The thread in a slot acts, if it can: it passes its check-in, or it moves. Whether it can move isn't asked before.
    #[inline(always)]
    fn act_in(&mut self, slot: u8) -> Result<Turn, AllocError>
        ensures turned { (setup : Setup) (g : Guard)
            → IsAt M.shown setup g self.old.state self.old.printed self.old.written → has_ended g ≡ false → g.open_offer ≡ None
            → IfOk result (TurnsTo (λ x. IsAt M.shown setup x self.new.state self.new.printed self.new.written) setup
            (act_of g slot) g (S.told self.old.sink) (S.told self.new.sink)) }
        ensures silent { OnErr result (S.told self.new.sink ≡ S.told self.old.sink) }
        ensures asked { M.asks self.old.state.run → M.asks self.new.state.run }
        ensures later { S.faults self.old.sink ≤ S.faults self.new.sink }
        ensures cause { (n : ℕ) → result ≡ Ok (Turn.SinkFailed n) → Rose (S.faults self.old.sink) (S.faults self.new.sink) }
        ensures never_out_of_memory { (n : ℕ) → M.lasts (1 + n) self.old.state.run → IsOk result }
        ensures lasts { (n : ℕ) → M.lasts n self.old.state.run → result ≡ Ok Turn.NoneActs → M.lasts n self.new.state.run }
        ensures rested { result ≡ Ok Turn.NoneActs → S.told self.new.sink ≡ S.told self.old.sink }
    {
        if self.state.is_at_check_in(slot) {
            return Ok(passed(slot, self.check_in(slot)));
        }
        let printed = self.printed;
        match self.act(slot)? {
            Made::Done => Ok(self.turn_after(slot, printed)),
            Made::CannotHappen => Ok(Turn::NoneActs),
            Made::SinkFailed => Ok(Turn::SinkFailed(slot)),
        }
    }

    /// What a turn came to in which the thread in a slot moved, by how many bytes the sink had before.
    #[inline(always)]
    fn turn_after(&self, slot: u8, printed: usize) -> Turn
        ensures turned { (setup : Setup) (g : Guard) → IsAt M.shown setup g self.now.state self.now.printed self.now.written
            → IsTurnAfter slot g printed result }
        ensures acted { result ≢ Turn.NoneActs }
        ensures written { (n : ℕ) → result ≢ Turn.SinkFailed n }
    {
        if self.printed != printed {
            return Turn::Changed(slot);
        }
        if self.state.has_ended() {
            Turn::Changed(slot)
        } else {
            Turn::Moved(slot)
        }
    }

    /// Opens an offer. Nothing is printed.
    pub fn offer(&mut self, k: u8) -> Made
        ensures made { (setup : Setup) (g : Guard) → IsAt M.shown setup g self.old.state self.old.printed self.old.written
            → MakesAt (λ x. IsAt M.shown setup x self.new.state self.new.printed self.new.written) setup (Offer k) g
            (S.told self.old.sink) (S.told self.new.sink) result }
        ensures asked { M.asks self.old.state.run → M.asks self.new.state.run }
        ensures later { S.faults self.old.sink ≤ S.faults self.new.sink }
        ensures written { result ≢ Made.SinkFailed }
        ensures lasts { (n : ℕ) → M.lasts n self.old.state.run → M.lasts n self.new.state.run }
    {
        made(self.state.offer(k, self.written))
    }

    /// Decides the open offer: it is installed, refused, or no patch. Nothing is printed. Where it isn't decided nothing changed,
    /// and the offer is still open.
    pub fn decide(&mut self, k: u8) -> Result<Made, Undecided>
        ensures made { (setup : Setup) (g : Guard) → IsAt M.shown setup g self.old.state self.old.printed self.old.written → IfOk result
            (MakesAt (λ x. IsAt M.shown setup x self.new.state self.new.printed self.new.written) setup (Decide k) g
            (S.told self.old.sink) (S.told self.new.sink)) }
        ensures stays { OnErr result ((setup : Setup) (g : Guard) → IsAt M.shown setup g self.old.state self.old.printed self.old.written
            → IsAt M.shown setup g self.new.state self.new.printed self.new.written) }
        ensures silent { OnErr result (S.told self.new.sink ≡ S.told self.old.sink) }
        ensures asked { M.asks self.old.state.run → M.asks self.new.state.run }
        ensures later { S.faults self.old.sink ≤ S.faults self.new.sink }
        ensures written { result ≢ Ok Made.SinkFailed }
        ensures misused { result ≡ Err Undecided.Misused → (setup : Setup) (g : Guard)
            → IsAt M.shown setup g self.old.state self.old.printed self.old.written → g.world.misused ≡ true }
        ensures undefined { result ≡ Err Undecided.UndefinedName → (setup : Setup) (g : Guard)
            → IsAt M.shown setup g self.old.state self.old.printed self.old.written → UsesUndefined setup k }
        ensures lasts { (n : ℕ) → M.lasts n self.old.state.run → M.lasts n self.new.state.run }
    {
        match self.state.decide(k) {
            Ok(done) => Ok(made(done)),
            Err(why) => Err(why),
        }
    }

    /// Closes the open offer with nothing changed. Nothing is printed.
    pub fn withdraw(&mut self, k: u8) -> Made
        ensures made { (setup : Setup) (g : Guard) → IsAt M.shown setup g self.old.state self.old.printed self.old.written
            → MakesAt (λ x. IsAt M.shown setup x self.new.state self.new.printed self.new.written) setup (Withdraw k) g
            (S.told self.old.sink) (S.told self.new.sink) result }
        ensures asked { M.asks self.old.state.run → M.asks self.new.state.run }
        ensures later { S.faults self.old.sink ≤ S.faults self.new.sink }
        ensures written { result ≢ Made.SinkFailed }
        ensures lasts { (n : ℕ) → M.lasts n self.old.state.run → M.lasts n self.new.state.run }
    {
        made(self.state.withdraw(k))
    }

    /// Hands the sink what was printed since the last time, and counts its lines. The machine may let go of its text then.
    #[inline(always)]
    fn write(&mut self) -> Made
        ensures wrote { (setup : Setup) (g : Guard) → IsRunAt setup g (M.shown self.old.state.run)
            → (M.shown self.old.state.run).kept ≤ self.old.printed → self.old.printed ≤ length g.world.output
            → Wrote g.world.output self.old.printed (S.told self.old.sink) (S.told self.new.sink)
            self.new.printed result }
        ensures lines { (before more : List ℕ) (setup : Setup) (g : Guard)
            → IsRunAt setup g (M.shown self.old.state.run) → (M.shown self.old.state.run).kept ≤ self.old.printed
            → g.world.output ≡ before ++ more → self.old.printed ≡ length before → self.old.written ≡ lines_among before
            → result ≡ Made.Done → self.new.written ≡ lines_written g.world }
        ensures stays { (setup : Setup) (g : Guard) → IsStateAt setup g (state_shown M.shown self.old.state)
            → IsStateAt setup g (state_shown M.shown self.new.state) }
        ensures kept { (setup : Setup) (g : Guard) → IsRunAt setup g (M.shown self.old.state.run)
            → (M.shown self.old.state.run).kept ≤ self.old.printed → self.old.printed ≤ length g.world.output
            → result ≡ Made.Done → (M.shown self.new.state.run).kept ≤ self.new.printed }
        ensures lasts { (n : ℕ) → M.spent n self.old.state.run → result ≡ Made.Done → M.lasts n self.new.state.run }
        ensures writes { result ≢ Made.CannotHappen }
        ensures asked { M.asks self.old.state.run → M.asks self.new.state.run }
        ensures later { S.faults self.old.sink ≤ S.faults self.new.sink }
        ensures cause { result ≡ Made.SinkFailed → Rose (S.faults self.old.sink) (S.faults self.new.sink) }
    {
        let piece = self.state.run.output_from(self.printed);
        // Most moves print nothing.
        if piece.is_empty() {
            self.state.run.forget();
            return Made::Done;
        }
        match put(&mut self.sink, piece) {
            Ok(()) => {
                self.written = sum(self.written, lines_in(piece));
                self.printed = sum(self.printed, piece.len());
                self.state.run.forget();
                Made::Done
            }
            Err(_) => Made::SinkFailed,
        }
    }
}
