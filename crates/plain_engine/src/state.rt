//! The state of a run beside its output.
ghost use Rattle.std.specs.Prelude.{◌≡◌, ◌+◌, ◌≤◌, ◌<◌, ◌-◌, ℕ, List, [], ◌∷◌, ◌++◌, false, true, length, map, slice_get, Some, None, MatchOption, IfOk, IfErr, IsOk, OnErr};
ghost use Rattle.std.specs.List.{range_with_len};
ghost use Rattle.c_tree.specs.declared.def.Program.{Program};
ghost use Rattle.run_types.specs.declared.run.Event.{Event};
ghost use Rattle.run_types.specs.declared.run.Event.TheVariants.{Move, CheckIn, Offer, Withdraw};
ghost use Rattle.source_model.specs.Worlds.{is_over};
ghost use Rattle.source_model.specs.Guards.{Guard, Setup, first_guard, has_ended, lines_written, seat_of};
ghost use Rattle.source_model.specs.Schedules.{act_of, first_act, slots_after};
ghost use Rattle.source_programs.specs.Programs.{text_in};
ghost use Rattle.dsu_runs.specs.Engines.{first_after};
ghost use Rattle.dsu_runs.specs.Setups.{limits_of, setup_of};
ghost use Rattle.installed_versions.specs.Firsts.{IsFirstFault};
ghost use Rattle.plain_engine.specs.declared.seat.Kept.TheVariants.{Passed};
ghost use Rattle.plain_engine.specs.Needs.{MeetsNeeds};
ghost use Rattle.plain_engine.specs.Plain.{AreSeats, IsRunAt, IsStateAt, state_shown};
ghost use Rattle.plain_engine.specs.Steps.{ComesTo, MovesTo};

use crate::moves::{follow_move, follow_mover};
use crate::seat::{Kept, Seat};
use crate::seats::Seats;
use c_types::Typed;
use dsu_runs::Book;
use installed_versions::{FirstFault, Installed};
use name_sets::Names;
use rows_in_force::marks_are_of_frames;
use run_machine::{Machine, Moved};
use run_types::Event;
use source_model::{OfferAnswer, frames_come_through_their_bodies};
use source_runner::FrameAt;
use std::alloc::{AllocError, Global};

/// How many slots there are.
pub(crate) const SLOTS: u8 = 16;

/// The state of a run beside its output.
#[derive(Drop)]
pub(crate) struct State<M> {
    pub alloc: Global,
    /// The machine. Its texts are the first one and those of the offers, so offer k is text k.
    pub run: M,
    pub seats: Seats,
    /// The versions so far.
    pub installed: Installed,
    /// The number of the text in force.
    pub last: usize,
    /// The offers with their answers.
    pub book: Book,
}

impl<M: Machine> State<M> {
    /// The start of a run over a machine at its start, whose texts are the first one and those of the offers, each with how
    /// many lines the program must have written before.
    pub(crate) fn first(alloc: Global, run: M, lines: Vec<u32>) -> Result<State<M>, FirstFault>
        requires some { 0 < length (M.shown run).trees }
        requires few { length lines.items ≤ 63 }
        ensures start { (text : Program) (offers : List Program) (objects : ℕ) → length offers ≡ length lines.items
            → (M.shown run).trees ≡ text ∷ offers → (M.shown run).is_run (map text_in (text ∷ offers)) (limits_of objects) []
            → let setup = setup_of text offers lines.items objects in MeetsNeeds (M.shown run).needs setup
            → IfOk result (λ s. IsStateAt setup (first_guard setup) (state_shown M.shown s)) }
        ensures kept { IfOk result (λ s. (M.shown s.run).kept ≡ (M.shown run).kept) }
        ensures same { IfOk result (λ s. s.run ≡ run) }
        ensures fault { IfErr result (λ fault. (text : Program) (offers : List Program) → (M.shown run).trees ≡ text ∷ offers
            → IsFirstFault text fault) }
    {
        let installed = Installed::first(alloc, first_text(&run))?;
        let book = Book::new(alloc, lines)?;
        let seats = first_seats(&run);
        Ok(State {
            alloc,
            run,
            seats,
            installed,
            last: 0,
            book,
        })
    }

    /// The answers to the offers, and the names for which the ids in them stand.
    pub(crate) fn into_parts(self) -> (Vec<OfferAnswer>, Names)
        ensures answers { result.0.items ≡ self.book.answers }
        ensures names { result.1 ≡ self.installed.names }
    {
        (self.book.into_answers(), self.installed.into_names())
    }

    /// Whether the run has ended.
    pub(crate) fn has_ended(&self) -> bool
        ensures { (setup : Setup) (g : Guard) → IsRunAt setup g (M.shown self.now.run) → result ≡ has_ended g }
    {
        self.run.ending().is_some()
    }

    /// Whether no move can be made any more.
    pub(crate) fn is_over(&self) -> bool
        ensures { (setup : Setup) (g : Guard) → IsRunAt setup g (M.shown self.now.run) → result ≡ is_over g.world }
    {
        if self.run.misused() {
            return true;
        }
        self.has_ended()
    }

    /// Whether the thread in a slot is at a check-in.
    #[inline(always)]
    pub(crate) fn is_at_check_in(&self, slot: u8) -> bool
        ensures value { (g : Guard) → AreSeats g (M.shown self.now.run) self.now.seats → has_ended g ≡ false
            → result ≡ (seat_of g slot).at_check_in }
        ensures within { result ≡ true → slot < 16 }
        ensures many { length self.now.seats ≡ 16 }
    {
        match self.seats.get(slot) {
            Some(seat) => seat.at_check_in,
            None => false,
        }
    }

    /// What the threads do next: of the slots in cyclic order after the one that acted last, the first one whose thread can act
    /// passes its check-in, or makes its move.
    #[inline(always)]
    pub(crate) fn next_act(&self, last: Option<u8>) -> Option<Event>
        ensures { M.asks self.now.run → (setup : Setup) (g : Guard) → IsStateAt setup g (state_shown M.shown self.now) → has_ended g ≡ false
            → length g.seats ≡ length g.world.slots → result ≡ first_act g (slots_after (length g.seats) last) }
    {
        let first = first_after(last);
        match self.act_within(first, SLOTS) {
            Some(act) => Some(act),
            None => self.act_within(0, first),
        }
    }

    /// The first slot in turn after the one that acted last in which a thread lives: if its thread can act, that is what comes
    /// next.
    #[inline(always)]
    pub(crate) fn next_thread(&self, last: Option<u8>) -> Option<u8>
        ensures { (setup : Setup) (g : Guard) → IsStateAt setup g (state_shown M.shown self.now) → has_ended g ≡ false
            → length g.seats ≡ length g.world.slots → MatchOption result (first_act g (slots_after (length g.seats) last) ≡ None)
            (λ slot. (act : Event) → act_of g slot ≡ Some act → first_act g (slots_after (length g.seats) last) ≡ Some act) }
    {
        let first = first_after(last);
        match self.seats.first_thread(first) {
            Some(slot) => Some(slot),
            None => self.seats.first_thread(0),
        }
    }

    /// What the first of the slots from one up to another does whose thread can act. Slots without a thread cost nothing.
    #[inline(always)]
    fn act_within(&self, from: u8, to: u8) -> Option<Event>
        requires { to ≤ 16 }
        ensures { M.asks self.now.run → (setup : Setup) (g : Guard) → IsStateAt setup g (state_shown M.shown self.now) → has_ended g ≡ false
            → result ≡ first_act g (range_with_len from (to - from)) }
    {
        let mut rest = from;
        while let Some(slot) = self.seats.first_thread(rest) {
            if slot >= to {
                return None;
            }
            if let Some(act) = self.act_of(slot) {
                return Some(act);
            }
            rest = slot + 1;
        }
        None
    }

    /// What the thread in a slot can do: it passes the check-in that it is at, or it moves.
    #[inline(always)]
    fn act_of(&self, slot: u8) -> Option<Event>
        ensures { M.asks self.now.run → (setup : Setup) (g : Guard) → IsStateAt setup g (state_shown M.shown self.now) → has_ended g ≡ false
            → result ≡ act_of g slot }
    {
        if self.is_at_check_in(slot) {
            return Some(Event::CheckIn(slot));
        }
        if self.run.can_move(slot) {
            Some(Event::Move(slot))
        } else {
            None
        }
    }

    /// Makes the move of the thread in a slot, if it can be made. Nothing is asked of the machine before.
    #[inline(always)]
    pub(crate) fn make(&mut self, slot: u8) -> Result<bool, AllocError>
        ensures made { (setup : Setup) (g : Guard) → IsStateAt setup g (state_shown M.shown self.old)
            → IfOk result (MovesTo setup (Move slot) g (state_shown M.shown self.new)) }
        ensures kept { (M.shown self.new.run).kept ≡ (M.shown self.old.run).kept }
        ensures asked { M.asks self.old.run → M.asks self.new.run }
        ensures never_out_of_memory { (n : ℕ) → M.lasts (1 + n) self.old.run → IsOk result }
        ensures spent { (n : ℕ) → M.lasts (1 + n) self.old.run → IfOk result (λ made. made ≡ true → M.spent n self.new.run) }
        ensures lasts { (n : ℕ) → M.lasts n self.old.run → IfOk result (λ made. made ≡ false → M.lasts n self.new.run) }
    {
        if self.is_at_check_in(slot) {
            return Ok(false);
        }
        match self.run.step(slot)? {
            Moved::CannotMove => Ok(false),
            Moved::Done(made) => {
                if made.starts {
                    follow_move(&self.run, &mut self.seats, slot, made.leads);
                } else {
                    follow_mover(&self.run, &mut self.seats, slot, made.leads);
                }
                Ok(true)
            }
        }
    }

    /// Lets the thread in a slot pass its check-in, if it can.
    #[inline(always)]
    pub(crate) fn pass(&mut self, slot: u8) -> bool
        ensures made { (setup : Setup) (g : Guard) → IsStateAt setup g (state_shown M.shown self.old)
            → ComesTo setup (CheckIn slot) g (state_shown M.shown self.new) result }
        ensures kept { (M.shown self.new.run).kept ≡ (M.shown self.old.run).kept }
        ensures asked { M.asks self.old.run → M.asks self.new.run }
        ensures lasts { (n : ℕ) → M.lasts n self.old.run → M.lasts n self.new.run }
    {
        if !self.is_at_check_in(slot) {
            return false;
        }
        if self.has_ended() {
            return false;
        }
        if self.book.open().is_some() {
            return false;
        }
        marks_are_of_frames();
        frames_come_through_their_bodies();
        let frame = self.run.frame(slot);
        let seat = self.seats.all()[slot as usize];
        self.seats.set(slot, passed(seat, frame));
        true
    }

    /// Opens an offer, if it can be opened where the program has written so many lines.
    pub(crate) fn offer(&mut self, k: u8, written: usize) -> bool
        ensures made { (setup : Setup) (g : Guard) → IsStateAt setup g (state_shown M.shown self.old) → written ≡ lines_written g.world
            → ComesTo setup (Offer k) g (state_shown M.shown self.new) result }
        ensures kept { (M.shown self.new.run).kept ≡ (M.shown self.old.run).kept }
        ensures asked { M.asks self.old.run → M.asks self.new.run }
        ensures lasts { (n : ℕ) → M.lasts n self.old.run → M.lasts n self.new.run }
    {
        if self.has_ended() {
            return false;
        }
        self.book.offer(k, written)
    }

    /// Closes an offer with nothing changed, if it is open and the run goes on.
    pub(crate) fn withdraw(&mut self, k: u8) -> bool
        ensures made { (setup : Setup) (g : Guard) → IsStateAt setup g (state_shown M.shown self.old)
            → ComesTo setup (Withdraw k) g (state_shown M.shown self.new) result }
        ensures kept { (M.shown self.new.run).kept ≡ (M.shown self.old.run).kept }
        ensures asked { M.asks self.old.run → M.asks self.new.run }
        ensures lasts { (n : ℕ) → M.lasts n self.old.run → M.lasts n self.new.run }
    {
        if self.has_ended() {
            return false;
        }
        if !self.book.is_open(k) {
            return false;
        }
        self.book.close(k, OfferAnswer::Withdrawn);
        true
    }
}

/// The first slot in turn after the one that acted last.
fn first_after(last: Option<u8>) -> u8
    ensures { result ≡ first_after 16 last }
{
    match last {
        None => 0,
        Some(slot) => { if slot < SLOTS { slot + 1 } else { 0 } }
    }
}

/// A slot whose thread passed its check-in in a frame.
fn passed(seat: Seat, frame: Option<FrameAt>) -> Seat
    ensures { result ≡ record seat { kept = Passed frame; at_check_in = false } }
{
    Seat {
        kept: Kept::Passed(frame),
        at_check_in: false,
        pinned: seat.pinned,
    }
}

/// The first text of a machine.
fn first_text<M: Machine>(run: &M) -> &Typed
    requires { 0 < length (M.shown run.now).trees }
    ensures { Some result.now ≡ slice_get (M.shown run.now).trees 0 }
{
    match run.text(0) {
        Some(text) => text,
        None => unreachable!(),
    }
}

/// The slots at the start: the thread of `main` alone.
fn first_seats<M: Machine>(run: &M) -> Seats
    ensures { (setup : Setup) → setup.limits.slots ≡ 16 → IsRunAt setup (first_guard setup) (M.shown run.now)
        → AreSeats (first_guard setup) (M.shown run.now) result }
{
    let mut seats = [Seat::empty(); 16];
    seats[0] = Seat::started(run.entering(0));
    Seats::of(seats)
}
