//! The marks of a flow.
ghost use Rattle.std.specs.Prelude.{◌≡◌, ℕ, ◌+◌, ◌^◌, ◌<◌, ◌≤◌, ◌++◌, [], length, map, slice_get, Some, IfOk, OnOk};
ghost use Rattle.std.specs.Option.{option_to_list};
ghost use Rattle.checkin_rows.specs.Marks.{check_ins_here, check_ins_to, start_at, check_in_at, there, entries_of, with_marks};
ghost use Rattle.checkin_rows.specs.Rows.{AreDifferent};

use crate::nodes::Nodes;
use crate::row::Mark;
use effect_flow::FlowPoint;
use indexmap::IndexSet;
use std::alloc::{AllocError, Global};

/// A mark, with a node that has some of the names of its row.
#[derive(Clone, Copy)]
pub(crate) struct Entry {
    pub(crate) mark: Mark,
    pub(crate) node: usize,
}

/// How many check-ins of its body come before a point, where `number` come after the latest entry.
fn check_ins_here(number: usize, point: &FlowPoint) -> usize
    ensures { result ≡ check_ins_here number point.now }
{
    if point.number == 0 { 0 } else { number }
}

/// How many come up to a point.
fn check_ins_to(number: usize, point: &FlowPoint) -> usize
    requires { number + 1 < 2 ^ 64 }
    ensures value { result ≡ check_ins_to number (Some point.now) }
    ensures bound { result ≤ number + 1 }
{
    let here = check_ins_here(number, point);
    if point.point.kind.is_check_in() {
        here + 1
    } else {
        here
    }
}

/// The mark of a start, if the point is an entry.
fn start_at(nodes: &Nodes, point: &FlowPoint) -> Option<Entry>
    ensures { result ≡ start_at nodes.now.points nodes.now.names point.now }
{
    if point.number != 0 {
        return None;
    }
    let function = point.function.index();
    Some(Entry {
        mark: Mark::Start(function as u16),
        node: nodes.points + nodes.points + nodes.names + function,
    })
}

/// The mark of a check-in, if the point is one.
fn check_in_at(number: usize, place: usize, point: &FlowPoint) -> Option<Entry>
    ensures { result ≡ check_in_at number place point.now }
{
    if !point.point.kind.is_check_in() {
        return None;
    }
    Some(Entry {
        mark: Mark::CheckIn(point.function.index() as u16, point.generation, number),
        node: place,
    })
}

/// Adds an entry that is there.
fn add(entries: &mut Vec<Entry>, found: Option<Entry>) -> Result<(), AllocError>
    ensures { OnOk result (entries.new.items ≡ entries.old.items ++ there found) }
{
    if let Some(entry) = found {
        entries.push(entry)?;
    }
    Ok(())
}

/// The marks of a flow's points, with their nodes.
pub(crate) fn entries(
    alloc: Global,
    nodes: &Nodes,
    points: &[FlowPoint],
) -> Result<Vec<Entry>, AllocError>
    requires { length points.now ≡ nodes.now.points }
    ensures { IfOk result (λ entries. entries.items
        ≡ entries_of nodes.now.points nodes.now.names points.now points.now) }
{
    let mut entries = Vec::new(alloc);
    let mut number: usize = 0;
    for (place, point) in points.iter().enumerate() {
        let here = check_ins_here(number, point);
        add(&mut entries, start_at(nodes, point))?;
        add(&mut entries, check_in_at(here, place, point))?;
        number = check_ins_to(number, point);
    }
    Ok(entries)
}

/// The different marks of some entries, in the order of the first entry of each.
pub(crate) fn marks(alloc: Global, entries: &[Entry]) -> Result<IndexSet<Mark>, AllocError>
    ensures marks { IfOk result (λ marks. marks.keys ≡ with_marks [] (map (λ e. e.mark) entries.now)) }
    ensures different { IfOk result (λ marks. AreDifferent marks.keys) }
{
    let mut marks = IndexSet::new(alloc);
    for entry in entries {
        marks.insert(entry.mark)?;
    }
    Ok(marks)
}
