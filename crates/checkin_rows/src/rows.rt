//! The rows of a flow.
ghost use Rattle.std.specs.Prelude.{◌≡◌, ℕ, ◌≤◌, List, length, IfOk};
ghost use Rattle.c_tree.specs.BareExpr.{Bytes};
ghost use Rattle.c_semantics.specs.Store.{Body};
ghost use Rattle.effect_flow.specs.Flows.{IsFlowOf};
ghost use Rattle.effect_flow.specs.Parts.{check_ins_among};
ghost use Rattle.contextual_effects.specs.Effects.{AreEffectsOf};
ghost use Rattle.checkin_rows.specs.Rows.{AreRowsOf, AreDifferent, IsNumber, IsEmptyRow, place_of, row_of};
ghost use Rattle.checkin_rows.specs.Limits.{most_check_ins, most_rows};
ghost use Rattle.checkin_rows.specs.Marks.{marks_of};

use crate::entries::{entries, marks};
use crate::gathering::{empty_row, gather, keep};
use crate::nodes::Nodes;
use crate::row::{Mark, RowId};
use crate::solution::solution_of;
use con_freeness::Row;
use contextual_effects::Effects;
use effect_flow::Flow;
use indexmap::IndexSet;
use name_sets::NameId;
use std::alloc::{AllocError, Global};
use std::marker::Model;

/// The rows of the check-ins and of the starts of a flow. Each different row is kept once.
#[derive(Drop)]
pub struct Rows {
    /// What has a row; its number is one more than its place.
    marks: IndexSet<Mark>,
    /// For each mark the place of its row.
    index: Vec<u16>,
    kept: IndexSet<Row>,
    empty: Row,
}

impl Model for Rows {
    ghost use Rattle.std.specs.Prelude.{◌≤◌, length};
    ghost use Rattle.checkin_rows.specs.Limits.{most_rows};
    ghost use Rattle.checkin_rows.specs.Rows.{Contents};

    ghost Value = { Contents };

    ghost view = { λ r. record {
      marks = r.marks.keys;
      index = r.index.items;
      kept = r.kept.keys;
      empty = r.empty;
    } };

    ghost invariant = { λ r. length r.marks.keys ≤ most_rows };
}

/// The rows of a flow of at most 63,000 check-ins, by its effects. With a row for the start of each function, of which a table
/// of names has at most 2,048, their numbers fit 16 bits.
pub fn rows_of(alloc: Global, flow: &Flow, effects: &Effects) -> Result<Rows, AllocError>
    requires { check_ins_among flow.now.points ≤ most_check_ins }
    ensures rows { IfOk result (λ r. (names : List Bytes) (bodies : List Body)
        → IsFlowOf names bodies flow.now → AreEffectsOf names bodies effects.now → AreRowsOf names bodies r) }
    ensures numbers { IfOk result (λ r. r.marks ≡ marks_of flow.now.points) }
    ensures marks { IfOk result (λ r. AreDifferent r.marks) }
    ensures kept { IfOk result (λ r. AreDifferent r.kept) }
    ensures empty { IfOk result (λ r. IsEmptyRow r.empty) }
{
    let nodes = Nodes::of(flow);
    let sets = solution_of(alloc, &nodes, effects, flow)?;
    let entries = entries(alloc, &nodes, flow.points())?;
    let marks = marks(alloc, &entries)?;
    let rows = gather(alloc, &entries, &sets, &marks)?;
    let (index, kept) = keep(alloc, &rows)?;
    Ok(Rows {
        marks,
        index,
        kept,
        empty: empty_row(),
    })
}

impl Rows {
    /// The row of a number. A number without a row has that of no names.
    pub fn row(&self, id: RowId) -> &Row
        ensures { result.now ≡ row_of self.now id }
    {
        let Some(place) = self.place(id) else {
            return &self.empty;
        };
        match self.kept.get_index(place) {
            Some(row) => row,
            None => &self.empty,
        }
    }

    /// The different rows. No two of those that `rows_of` gives are equal.
    pub fn kept(&self) -> &[Row]
        ensures { result.now ≡ self.now.kept }
    {
        self.kept.as_slice()
    }

    /// The number of the row of a check-in, by the function and generation of its body and its number there; 0 if the flow
    /// has none there.
    pub fn row_id(&self, name: NameId, generation: u32, checkin: usize) -> RowId
        ensures { IsNumber self.now.marks (Mark.CheckIn name generation checkin) result }
    {
        self.number(Mark::CheckIn(name.index() as u16, generation, checkin))
    }

    /// The number of the row of a thread that starts with a function; 0 if the flow has no body of it.
    pub fn start_row(&self, name: NameId) -> RowId
        ensures { IsNumber self.now.marks (Mark.Start name) result }
    {
        self.number(Mark::Start(name.index() as u16))
    }

    /// The place of the row of a number among the different rows.
    fn place(&self, id: RowId) -> Option<usize>
        ensures { result ≡ place_of self.now id }
    {
        let number = id.index();
        if number == 0 {
            return None;
        }
        match self.index.get(number - 1) {
            Some(place) => Some(*place as usize),
            None => None,
        }
    }

    /// The number of the row of a mark.
    fn number(&self, mark: Mark) -> RowId
        ensures { IsNumber self.now.marks mark result }
    {
        match self.marks.get_index_of(&mark) {
            Some(place) => RowId::at(place + 1),
            None => RowId::at(0),
        }
    }
}
