//! The slots after a move.
ghost use Rattle.std.specs.Prelude.{◌≡◌, ◌==◌, ◌&&◌, List, Some};
ghost use Rattle.c_tree.specs.BareDef.{BareDef};
ghost use Rattle.source_model.specs.Runs.{SourceMove as Made, is_live};
ghost use Rattle.source_model.specs.Worlds.{Limits, World, in_slot, is_over};
ghost use Rattle.source_model.specs.Guards.{in_transaction};
ghost use Rattle.source_runner.specs.SourceRuns.{world_after};
ghost use Rattle.plain_engine.specs.Kept.{AreAfter, IsAfter, IsMoved, IsOther, NoneNew, is_there};

use crate::seat::Seat;
use crate::seats::Seats;
use run_machine::Machine;

/// Whether a thread that was pinned still is: a pin doesn't outlive its transaction.
fn stays_pinned<M: Machine>(run: &M, slot: u8, pinned: bool) -> bool
    ensures { (texts : List (List BareDef)) (limits : Limits) (moves : List Made) (w : World)
        → (M.shown run.now).is_run texts limits moves → world_after texts limits moves ≡ Some w
        → result ≡ (pinned && in_transaction (in_slot w slot)) }
{
    if pinned {
        run.in_transaction(slot)
    } else {
        false
    }
}

/// The slot of the thread that moved, by whether the move led to a check-in.
fn moved<M: Machine>(run: &M, seat: Seat, slot: u8, leads: bool) -> Seat
    ensures { (texts : List (List BareDef)) (limits : Limits) (moves : List Made) (w : World)
        → (M.shown run.now).is_run texts limits moves → world_after texts limits moves ≡ Some w
        → IsMoved (in_slot w slot) leads seat result }
{
    if !run.is_live(slot) {
        return Seat::empty();
    }
    Seat {
        kept: seat.kept,
        at_check_in: leads,
        pinned: stays_pinned(run, slot, seat.pinned),
    }
}

/// Another slot: a thread that lives there stays, and one may be new.
fn other<M: Machine>(run: &M, seat: Seat, slot: u8) -> Seat
    ensures { (texts : List (List BareDef)) (limits : Limits) (moves : List Made) (w : World)
        → (M.shown run.now).is_run texts limits moves → world_after texts limits moves ≡ Some w
        → IsOther (is_there seat.kept) (is_live (in_slot w slot)) (M.shown run.now).words (is_over w)
        (in_slot w slot) seat result }
{
    if seat.is_there() {
        return seat;
    }
    if run.is_live(slot) {
        Seat::started(run.entering(slot))
    } else {
        Seat::empty()
    }
}

/// A slot after a move of the thread in slot `mover`.
fn after<M: Machine>(run: &M, seat: Seat, slot: u8, mover: u8, leads: bool) -> Seat
    ensures { (texts : List (List BareDef)) (limits : Limits) (moves : List Made) (w : World)
        → (M.shown run.now).is_run texts limits moves → world_after texts limits moves ≡ Some w
        → IsAfter (M.shown run.now).words (is_over w) (in_slot w slot) (slot == mover) leads seat result }
{
    if slot == mover {
        moved(run, seat, slot, leads)
    } else {
        other(run, seat, slot)
    }
}

/// Makes the slots those after a move of the thread in slot `mover`, by whether the move led to a check-in. Each slot in
/// which no thread was is looked at, since one may be new.
pub(crate) fn follow_move<M: Machine>(run: &M, seats: &mut Seats, mover: u8, leads: bool)
    ensures { (texts : List (List BareDef)) (limits : Limits) (moves : List Made) (w : World)
        → (M.shown run.now).is_run texts limits moves → world_after texts limits moves ≡ Some w
        → AreAfter (M.shown run.now).words w mover leads seats.old seats.new }
{
    let before = *seats.all();
    for slot in 0..16u8 {
        let seat = before[slot as usize];
        seats.set(slot, after(run, seat, slot, mover, leads));
    }
}

/// The same of a move that started no thread: the other slots stay.
#[inline(always)]
pub(crate) fn follow_mover<M: Machine>(run: &M, seats: &mut Seats, mover: u8, leads: bool)
    ensures { (texts : List (List BareDef)) (limits : Limits) (moves : List Made) (w : World)
        → (M.shown run.now).is_run texts limits moves → world_after texts limits moves ≡ Some w → NoneNew w mover seats.old
        → AreAfter (M.shown run.now).words w mover leads seats.old seats.new }
{
    let Some(seat) = seats.get(mover) else {
        return;
    };
    if run.is_live(mover) {
        seats.go_on(mover, leads, stays_pinned(run, mover, seat.pinned));
    } else {
        seats.set(mover, Seat::empty());
    }
}
