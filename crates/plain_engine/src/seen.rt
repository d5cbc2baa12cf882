//! The slots as a decision sees them.
ghost use Rattle.std.specs.Prelude.{◌≡◌, ◌≤◌, ℕ, List, Some};
ghost use Rattle.c_tree.specs.BareDef.{BareDef};
ghost use Rattle.source_model.specs.Runs.{SourceMove as Made};
ghost use Rattle.source_model.specs.Worlds.{Limits, World, in_slot};
ghost use Rattle.source_model.specs.Guards.{in_transaction};
ghost use Rattle.source_runner.specs.SourceRuns.{world_after};
ghost use Rattle.plain_engine.specs.declared.seat.Kept.TheVariants.{Passed, Started};
ghost use Rattle.plain_engine.specs.Kept.{ArePinned, name_of};
ghost use Rattle.plain_engine.specs.Seen.{AreSeen, AreWithin, IsOriginOf, IsSeen};

use crate::seat::{Kept, Seat};
use crate::seats::Seats;
use name_sets::Names;
use offer_decision::Seat as Seen;
use resolved_tree::Word;
use rows_in_force::Origin;
use run_machine::Machine;
use source_runner::FrameAt;

/// The name of the function with which a thread starts; it is empty where the function isn't known.
fn name_of<M: Machine>(run: &M, function: Option<Word>) -> &str
    ensures { result.now ≡ name_of (M.shown run.now).words function }
{
    match function {
        Some(function) => run.word(function),
        None => "",
    }
}

/// The version under which a frame was entered, where there are so many.
fn version_of(frame: FrameAt, versions: u32) -> u32
    ensures { frame.version ≤ versions → result ≡ frame.version }
{
    u32::try_from(frame.version).unwrap_or(versions)
}

/// Where the row of a thread that was started comes from.
fn origin_of_start<M: Machine>(run: &M, names: &Names, function: Option<Word>) -> Option<Origin>
    ensures { (versions : ℕ) → IsOriginOf (M.shown run.now).words names.now versions (Started function) result }
{
    match names.find(name_of(run, function)) {
        Some(id) => Some(Origin::Start(id)),
        None => None,
    }
}

/// Where the row of a thread comes from that passed a check-in in a frame.
fn origin_in_frame<M: Machine>(
    run: &M,
    names: &Names,
    versions: u32,
    frame: FrameAt,
) -> Option<Origin>
    ensures { IsOriginOf (M.shown run.now).words names.now versions (Passed (Some frame)) result }
{
    match names.find(run.word(frame.function)) {
        Some(id) => Some(Origin::Passed(id, version_of(frame, versions), frame.point)),
        None => None,
    }
}

/// Where the row in force of a slot comes from. There is none where no thread lives, nor where no version has the function
/// of the thread: its row has no name of theirs.
fn origin<M: Machine>(run: &M, names: &Names, versions: u32, kept: Kept) -> Option<Origin>
    ensures { IsOriginOf (M.shown run.now).words names.now versions kept result }
{
    match kept {
        Kept::Empty => None,
        Kept::Started(function) => origin_of_start(run, names, function),
        Kept::Passed(Some(frame)) => origin_in_frame(run, names, versions, frame),
        Kept::Passed(None) => None,
    }
}

/// A slot as a decision sees it.
fn seen<M: Machine>(run: &M, names: &Names, versions: u32, seat: Seat, slot: u8) -> Seen
    ensures kept { IsSeen (M.shown run.now).words names.now versions seat result }
    ensures within { (texts : List (List BareDef)) (limits : Limits) (moves : List Made) (w : World)
        → (M.shown run.now).is_run texts limits moves → world_after texts limits moves ≡ Some w
        → in_transaction (in_slot w slot) ≡ result.in_transaction }
{
    Seen {
        origin: origin(run, names, versions, seat.kept),
        pinned: seat.pinned,
        in_transaction: run.in_transaction(slot),
    }
}

/// A slot that a decision doesn't see.
fn unseen() -> Seen {
    Seen {
        origin: None,
        pinned: false,
        in_transaction: false,
    }
}

/// The slots as a decision sees them, by the names of the versions so far and how many these are.
pub(crate) fn seats_seen<M: Machine>(
    run: &M,
    names: &Names,
    versions: u32,
    seats: &Seats,
) -> [Seen; 16]
    ensures kept { AreSeen (M.shown run.now).words names.now versions seats.now result }
    ensures within { (texts : List (List BareDef)) (limits : Limits) (moves : List Made) (w : World)
        → (M.shown run.now).is_run texts limits moves → world_after texts limits moves ≡ Some w → AreWithin w result }
{
    let mut all = [unseen(); 16];
    for slot in 0..16u8 {
        let seat = seats.all()[slot as usize];
        all[slot as usize] = seen(run, names, versions, seat, slot);
    }
    all
}

/// A slot with another pin.
fn with_pin(seat: Seat, pinned: bool) -> Seat
    ensures { result ≡ record seat { pinned = pinned } }
{
    Seat {
        kept: seat.kept,
        at_check_in: seat.at_check_in,
        pinned,
    }
}

/// The slots with other pins.
pub(crate) fn with_pins(seats: &Seats, pins: &[bool; 16]) -> Seats
    ensures { ArePinned pins.now seats.now result }
{
    let mut all = [Seat::empty(); 16];
    for slot in 0..16usize {
        all[slot] = with_pin(seats.all()[slot], pins[slot]);
    }
    Seats::of(all)
}
