//! The lock.
ghost use Rattle.std.specs.Prelude.{◌≡◌, ◌≤◌, List, [], ◌++◌, All, length, IfOk, IfErr, Some, None};
ghost use Rattle.pass_lock.specs.declared.view.Open.{Open};
ghost use Rattle.pass_lock.specs.Histories.{Adds};
ghost use Rattle.pass_lock.specs.Passes.{IsPassOf, IsFreePassOf, opened, fresh_from, Keeps};

use crate::pass::{LockFault, Pass, Turn};
use crate::rule::{Draw, Rule, Serve};
use crate::seats::{SERVING, TICKETS, deal, gathered, lay, value_of, wait_for};
use crate::told::Told;
use crate::view::View;
use atomic_table::Table;
use std::alloc::Global;
use std::marker::Model;
use std::sync::Wait;

/// A value that threads take in turns, in the order in which they ask.
#[derive(Drop)]
pub struct PassLock<W: Told> {
    table: Table<Option<W>, View<W::What>, u32, Rule, Global>,
    passes: u32,
}

impl<W: Told> Model for PassLock<W> {
    ghost use Rattle.pass_lock.specs.Passes.{Lock};

    ghost Value = { Lock };

    ghost view = { λ l. record { table = l.table.shared.table_id; passes = l.passes } };

    ghost use Rattle.std.specs.Prelude.{◌≡◌, ◌+◌, ◌<◌, ◌≤◌};

    ghost invariant = { λ l. (l.table.shared.table_id.words ≡ l.passes + 2) × (l.table.shared.table_id.slots ≡ 1) × (l.table.shared.key ≡ l.passes) × (0 < l.passes) × (l.passes ≤ 64) };
}

impl<W: Told> PassLock<W> {
    /// A lock over a value with no history, and its passes, which have the numbers from 0 in order.
    pub fn make(
        alloc: Global,
        value: W,
        passes: u32,
    ) -> Result<(PassLock<W>, Vec<Pass<W>>), LockFault<W>>
        requires count { (1 ≤ passes) × (passes ≤ 64) }
        requires empty { W.history value ≡ [] }
        ensures ok { IfOk result (λ r. (r.0.passes ≡ passes) × (r.1.items ≡ fresh_from r.0.table 0 passes)) }
        ensures err { IfErr result (λ f. f.value ≡ value) }
    {
        let Ok(mut all) = Vec::with_capacity(alloc, passes as usize) else {
            return Err(LockFault { value });
        };
        let (table, mut first) = lay(alloc, value, passes)?;
        deal(&table.shared, &mut first, &mut all, passes);
        Ok((PassLock { table, passes }, all))
    }

    /// Waits until it is this pass's turn, after all that asked before, and takes the value out.
    pub fn take<R: Wait>(&self, rt: &R, pass: &mut Pass<W>) -> Turn<W>
        requires { IsFreePassOf self.now pass.old }
        ensures pass { pass.new ≡ record pass.old { turn = Some (opened (W.history result.value)) } }
        ensures history { Keeps (W.history result.value) pass.old }
    {
        let board = &self.table.shared;
        let ticket = board.fetch_add::<Draw>(&mut pass.seat, TICKETS, 1);
        let value = wait_for(rt, board, &mut pass.seat, ticket);
        Turn { value }
    }

    /// Puts the value back, with one more entry or none, and serves the next ticket.
    pub fn give(&self, pass: &mut Pass<W>, turn: Turn<W>)
        requires lock { IsPassOf self.now pass.old }
        requires turn { (o : Open W.What) × (added : List W.What) × (pass.old.turn ≡ Some o) × Adds pass.old.number o.log added (W.history turn.value) }
        ensures pass { pass.new ≡ record pass.old { seen = W.history turn.value; own = pass.new.own; turn = None } }
        ensures own { (o : Open W.What) (added : List W.What) → pass.old.turn ≡ Some o → Adds pass.old.number o.log added (W.history turn.value) → pass.new.own ≡ pass.old.own ++ added }
    {
        let Turn { value } = turn;
        let board = &self.table.shared;
        let taken = board.exchange(&mut pass.seat, 0, Some(value));
        let None = taken else { unreachable!() };
        let served = board.fetch_add::<Serve>(&mut pass.seat, SERVING, 1);
        if board.peek(TICKETS) != served.wrapping_add(1) {
            board.wake_all(SERVING);
        }
    }

    /// Takes the lock apart and hands the value back.
    pub fn close(self, passes: Vec<Pass<W>>) -> W
        requires all { length passes.items ≡ self.passes }
        requires free { All (IsFreePassOf self) passes.items }
        ensures { All (Keeps (W.history result)) passes.items }
    {
        let PassLock { table, passes: _ } = self;
        let seat = gathered(&table.shared, passes);
        value_of(table.close_with(seat))
    }
}
