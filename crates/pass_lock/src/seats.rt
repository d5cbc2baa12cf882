//! Functions over the seats of a lock's table.
ghost use Rattle.std.specs.Prelude.{◌≡◌, ◌+◌, ◌<◌, ◌≤◌, [], ◌∷◌, All, length, map, vec_len, vec_capacity, IfOk, IfErr, Some, None};
ghost use Rattle.std.specs.Mem.Slots.{slots_items, slots_len, IsFull};
ghost use mathlib.Core.Option.{some};
ghost use lib.ListN.{get_elem?};
ghost use Rattle.pass_lock.specs.Passes.{IsFreeAt, fresh_from};
ghost use Rattle.pass_lock.specs.Ruled.{Fits};
ghost use Rattle.pass_lock.specs.Steps.{first_view, seated, first_claim, HasTicket, began, claim_of};
ghost use Rattle.pass_lock.specs.declared.view.Stage.TheVariants.{Idle};

use crate::pass::{LockFault, Pass};
use crate::rule::{Deal, Gather, Look, Rule};
use crate::told::Told;
use crate::view::View;
use atomic_table::{Closed, Refused, Seat, Shared, Table};
use std::alloc::Global;
use std::sync::Wait;
use std::thread;

pub(crate) const TICKETS: usize = 0;

pub(crate) const SERVING: usize = 1;

// How often a waiting thread yields before it sleeps.
const PATIENCE: u32 = 100;

pub(crate) type Board<W> = Shared<Option<W>, View<<W as Told>::What>, u32, Rule>;

pub(crate) type Place<W> = Seat<Option<W>, View<<W as Told>::What>>;

type Whole<W> = Table<Option<W>, View<<W as Told>::What>, u32, Rule, Global>;

// The table with the value, and its first seat.
pub(crate) fn lay<W: Told>(
    alloc: Global,
    value: W,
    passes: u32,
) -> Result<(Whole<W>, Place<W>), LockFault<W>>
    requires { (passes ≤ 64) × (W.history value ≡ []) }
    ensures table { IfOk result (λ t. (t.0.shared.table_id.words ≡ passes + 2) × (t.0.shared.table_id.slots ≡ 1) × (t.0.shared.key ≡ passes)) }
    ensures seat { IfOk result (λ t. (t.1.table_id ≡ t.0.shared.table_id) × (t.1.me ≡ (first_view, []))) }
    ensures err { IfErr result (λ f. f.value ≡ value) }
{
    let Ok(words) = Vec::from_elem(alloc, 0u64, passes as usize + 2) else {
        return Err(LockFault { value });
    };
    let Ok(mut slots) = Vec::with_capacity(alloc, 1) else {
        return Err(LockFault { value });
    };
    slots.push_reserved(Some(value));
    match Table::new(alloc, words.as_slice(), slots, &passes) {
        Ok(made) => Ok(made),
        Err(refused) => Err(returned(refused)),
    }
}

// The value of a table that could not be made.
fn returned<W: Told>(refused: Refused<Option<W>, Global>) -> LockFault<W>
    requires { (w : W) × (refused.slots.items ≡ Some w ∷ []) }
    ensures { refused.slots.items ≡ Some result.value ∷ [] }
{
    let Refused { mut slots } = refused;
    let value = slots.pop().unwrap().unwrap();
    slots.destroy_empty();
    LockFault { value }
}

// Makes this many passes, in the order of their numbers.
pub(crate) fn deal<W: Told>(
    board: &Board<W>,
    first: &mut Place<W>,
    all: &mut Vec<Pass<W>>,
    passes: u32,
)
    requires board { (first.old.table_id ≡ board.now.table_id) × (0 < board.now.table_id.words) × (board.now.key ≡ passes) }
    requires first { first.old.me ≡ (first_view, []) }
    requires room { (all.old.items ≡ []) × (passes ≤ vec_capacity all.old) }
    ensures { all.new.items ≡ fresh_from board.now.table_id 0 passes }
{
    let mut number = 0;
    while number < passes {
        let seat = board.split_seat::<Deal>(first);
        all.push_reserved(Pass::of(seat));
        number += 1;
    }
}

// Looks until the ticket is served, and sleeps in between.
pub(crate) fn wait_for<W: Told, R: Wait>(
    rt: &R,
    board: &Board<W>,
    seat: &mut Place<W>,
    ticket: u64,
) -> W
    requires board { (seat.old.table_id ≡ board.now.table_id) × (board.now.table_id.words ≡ board.now.key + 2) × (board.now.table_id.slots ≡ 1) }
    requires seat { HasTicket ticket seat.old.me.0.stage × (seat.old.me.0.claims ≡ first_claim seat.old.me.0.claims ∷ []) × (seat.old.me.1 ≡ []) }
    ensures seat { (seat.new.table_id ≡ seat.old.table_id) × (seat.new.me ≡ (record seat.old.me.0 { stage = began (W.history result) seat.old.me.0.stage }, (0, None) ∷ [])) }
    ensures history { Fits (W.history result) (first_claim seat.old.me.0.claims) }
{
    let mut rounds = 0;
    for _ in rt.forever() {
        let serving = board.load::<Look>(seat, SERVING);
        if serving == ticket {
            return board.exchange(seat, 0, None).unwrap();
        }
        pause(rt, board, serving, rounds);
        rounds = rounds.saturating_add(1);
    }
    unreachable!()
}

// Leaves the processor to others, and sleeps after some rounds until a turn ends.
fn pause<W: Told, R: Wait>(rt: &R, board: &Board<W>, serving: u64, rounds: u32)
    requires { board.now.table_id.words ≡ board.now.key + 2 }
{
    if rounds < PATIENCE {
        thread::yield_now();
    } else {
        board.park(rt, SERVING, (serving % (1 << 32)) as u32);
    }
}

// One seat with what is known of all passes, in their order.
pub(crate) fn gathered<W: Told>(board: &Board<W>, mut passes: Vec<Pass<W>>) -> Place<W>
    requires some { (0 < board.now.table_id.words) × (0 < length passes.items) }
    requires free { All (IsFreeAt board.now.table_id) passes.items }
    ensures { (result.table_id ≡ board.now.table_id) × (result.me ≡ (seated Idle (map claim_of passes.items) result.me.0.makes, [])) }
{
    let mut all = passes.pop().unwrap().into_seat();
    while let Some(pass) = passes.pop() {
        let mut seat = pass.into_seat();
        board.join_seat::<Gather>(&mut seat, all);
        all = seat;
    }
    all
}

// The value of a closed table.
pub(crate) fn value_of<W>(mut closed: Closed<Option<W>, Global>) -> W
    requires { (slots_len closed.slots ≡ 1) × IsFull closed.slots × ((w : W) × (get_elem? (slots_items closed.slots) 0 ≡ some (Some w))) }
    ensures { get_elem? (slots_items closed.slots) 0 ≡ some (Some result) }
{
    let value = closed.take(0);
    closed.free();
    value.unwrap()
}
