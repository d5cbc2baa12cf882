//! The rows of marks, and the different rows among them.
ghost use Rattle.std.specs.Prelude.{◌≡◌, ℕ, ◌+◌, ◌<◌, ◌≤◌, length, slice_get, IfOk};
ghost use Rattle.checkin_rows.specs.Limits.{most_rows};
ghost use Rattle.checkin_rows.specs.Rows.{AreDifferent, IsEmptyRow};
ghost use Rattle.checkin_rows.specs.Steps.{AddsEntry, AreRowsOfMarks, AreKept};

use crate::entries::Entry;
use crate::row::Mark;
use crate::solution::Solution;
use con_freeness::Row;
use indexmap::IndexSet;
use name_sets::{NameId, NameSet};
use std::alloc::{AllocError, Global};

/// The row of no names.
pub(crate) fn empty_row() -> Row
    ensures { IsEmptyRow result }
{
    Row {
        prior: NameSet::empty(),
        future: NameSet::empty(),
        concrete: NameSet::empty(),
    }
}

/// Adds what an entry has to the row of its mark: the names of its node, and the function of a start, whose enter is still
/// to come.
fn add_entry(row: &mut Row, entry: &Entry, sets: &Solution)
    ensures { AddsEntry sets.now entry.now row.old row.new }
{
    row.prior.union_with(&sets.prior(entry.node));
    row.future.union_with(&sets.future(entry.node));
    row.concrete.union_with(&sets.concrete(entry.node));
    if let Mark::Start(function) = entry.mark {
        if let Some(id) = NameId::new(function as usize) {
            row.concrete.add(id);
        }
    }
}

/// The rows of marks.
pub(crate) fn gather(
    alloc: Global,
    entries: &[Entry],
    sets: &Solution,
    marks: &IndexSet<Mark>,
) -> Result<Vec<Row>, AllocError>
    requires { AreDifferent marks.now.keys }
    ensures { IfOk result (λ rows. AreRowsOfMarks entries.now sets.now marks.now.keys rows.items) }
{
    let mut rows = vec![in alloc; empty_row(); marks.len()]?;
    for entry in entries {
        if let Some(place) = marks.get_index_of(&entry.mark) {
            add_entry(&mut rows[place], entry, sets);
        }
    }
    Ok(rows)
}

/// The different rows, and the place of each row among them.
pub(crate) fn keep(alloc: Global, rows: &[Row]) -> Result<(Vec<u16>, IndexSet<Row>), AllocError>
    requires { length rows.now ≤ most_rows }
    ensures kept { IfOk result (λ r. AreKept rows.now r.0.items r.1.keys) }
    ensures different { IfOk result (λ r. AreDifferent r.1.keys) }
{
    let mut index = Vec::new(alloc);
    let mut kept = IndexSet::new(alloc);
    for row in rows {
        let (place, _) = kept.insert_full(*row)?;
        index.push(place as u16)?;
    }
    Ok((index, kept))
}
