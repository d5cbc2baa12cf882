//! Globals and arrays.
ghost use Rattle.std.specs.Prelude.{◌≡◌, ◌<◌, ◌∷◌, [], ℕ, false, true, List, map, length, Some, None, bytes_eq, unsigned_abs, slice_set, if◌then◌else◌, slice_get, IfOk, OnOk, IfSome, MatchOption, IsTrue, IsFalse};
ghost use Rattle.std.specs.List.{position};
ghost use Rattle.c_ints.specs.Number.{value_of};
ghost use Rattle.c_tree.specs.BareDef.{BareDef};
ghost use Rattle.c_semantics.specs.Stops.{ReadGlobal, WriteGlobal, ReadElement, WriteElement};
ghost use Rattle.c_semantics.specs.Values.{Value as SeenValue};
ghost use Rattle.c_semantics.specs.Transformers.{first_cell};
ghost use Rattle.source_model.specs.Worlds.{World, with_cells_in, cells_of as cells_in};
ghost use Rattle.source_model.specs.Moves.{in_bounds};
ghost use Rattle.resolved_tree.specs.Nodes.{word};
ghost use Rattle.source_programs.specs.Globals.{globals_of};
ghost use Rattle.source_data.specs.Stores.{Kept, Performs};
ghost use Rattle.resolved_tree.specs.Trees.{table};
ghost use Rattle.local_evaluation.specs.Values.{seen};
ghost use Rattle.local_evaluation.specs.Work.{newest};

use crate::shared_stops::Did;
use crate::store::Store;
use c_ints::Int;
use local_evaluation::Value;
use resolved_tree::{Trees, Word};
use run_types::TrapKind;
use source_programs::Globals;
use std::alloc::AllocError;

/// The place of the global of a name.
fn place_of(trees: &Trees, globals: &Globals, name: Word) -> Option<usize>
    ensures { result ≡ position (λ g. bytes_eq (word (table trees.now) name) g.name) (globals_of globals.now.list.items) }
{
    globals.places.find(trees.text(name))
}

/// The cells of a global; none where there is no such global.
fn cells_of<'a>(trees: &Trees, globals: &'a Globals, name: Word) -> &'a [Value]
    ensures { (w : World) → w.globals ≡ globals_of globals.now.list.items
        → map seen result.now ≡ cells_in w (word (table trees.now) name) }
{
    match place_of(trees, globals, name) {
        Some(place) => globals.list[place].cells.as_slice(),
        None => &[],
    }
}

/// The first of some cells; the `int` 0 where there is none.
fn first_of(cells: &[Value]) -> Value
    ensures { seen result ≡ first_cell (map seen cells.now) }
{
    match cells {
        [first, ..] => *first,
        [] => Value::Number(Int::I32(0)),
    }
}

/// Changes the value of a global variable, if there is one.
fn set_global(
    trees: &Trees,
    globals: &mut Globals,
    name: Word,
    value: Value,
) -> Result<(), AllocError>
    ensures { OnOk result (globals_of globals.new.list.items
        ≡ with_cells_in (word (table trees.now) name) (seen value ∷ []) (globals_of globals.old.list.items)) }
{
    if let Some(place) = place_of(trees, globals, name) {
        let cells = &mut globals.list[place].cells;
        cells.clear();
        cells.push(value)?;
    }
    Ok(())
}

/// An index as a place in an array of a length.
fn within(index: Int, len: usize) -> Option<usize>
    ensures place { (cells : List SeenValue) → length cells ≡ len
        → result ≡ (if in_bounds (value_of index) cells then Some (unsigned_abs (value_of index)) else None) }
    ensures within { IfSome result (λ place. place < len) }
{
    let place = usize::try_from(index.value()).ok()?;
    if place < len { Some(place) } else { None }
}

/// An element of an array, if there is one with the index.
fn element(cells: &[Value], index: Int) -> Option<Value>
    ensures { let cells = map seen cells.now in MatchOption result
        (in_bounds (value_of index) cells ≡ false)
        (λ v. (in_bounds (value_of index) cells ≡ true) × (slice_get cells (unsigned_abs (value_of index)) ≡ Some (seen v))) }
{
    let place = within(index, cells.len())?;
    Some(cells[place])
}

/// Changes an element of an array. The answer is whether there is one with the index.
fn set_element(trees: &Trees, globals: &mut Globals, name: Word, index: Int, value: Value) -> bool
    ensures inside { (w : World) → w.globals ≡ globals_of globals.old.list.items
        → result ≡ in_bounds (value_of index) (cells_in w (word (table trees.now) name)) }
    ensures changed { let name = word (table trees.now) name in IsTrue result
        → (w : World) → w.globals ≡ globals_of globals.old.list.items → globals_of globals.new.list.items
        ≡ with_cells_in name (slice_set (cells_in w name) (unsigned_abs (value_of index)) (seen value)) w.globals }
    ensures same { IsFalse result → globals_of globals.new.list.items ≡ globals_of globals.old.list.items }
{
    let Some(place) = place_of(trees, globals, name) else {
        return false;
    };
    let cells = &mut globals.list[place].cells;
    let Some(cell) = within(index, cells.len()) else {
        return false;
    };
    cells[cell] = value;
    true
}

/// Reads a global variable.
pub fn read_global(
    trees: &Trees,
    store: &Store,
    values: &mut Vec<Value>,
    name: Word,
) -> Result<Did, AllocError>
    ensures made { (text : List BareDef) (slot : ℕ) → IfOk result (λ did. Performs (table trees.now) text slot (ReadGlobal (word (table trees.now) name)) store.now values.old.items did store.now values.new.items) }
    ensures kept { IfOk result (λ did. Kept did store.now values.old.items store.now values.new.items) }
{
    values.push(first_of(cells_of(trees, &store.globals, name)))?;
    Ok(Did::On)
}

/// Writes a global variable; the value stays.
pub fn write_global(
    trees: &Trees,
    store: &mut Store,
    values: &[Value],
    name: Word,
) -> Result<Did, AllocError>
    ensures made { (text : List BareDef) (slot : ℕ) → IfOk result (λ did. Performs (table trees.now) text slot (WriteGlobal (word (table trees.now) name)) store.old values.now did store.new values.now) }
    ensures kept { IfOk result (λ did. Kept did store.old values.now store.new values.now) }
{
    let [.., value] = values else {
        return Ok(Did::Nothing);
    };
    set_global(trees, &mut store.globals, name, *value)?;
    Ok(Did::On)
}

/// Reads an element of an array, whose index is the newest value.
pub fn read_element(
    trees: &Trees,
    store: &Store,
    values: &mut [Value],
    name: Word,
) -> Result<Did, AllocError>
    ensures made { (text : List BareDef) (slot : ℕ) → IfOk result (λ did. Performs (table trees.now) text slot (ReadElement (word (table trees.now) name)) store.now values.old did store.now values.new) }
    ensures kept { IfOk result (λ did. Kept did store.now values.old store.now values.new) }
{
    let cells = cells_of(trees, &store.globals, name);
    let [.., newest] = values else {
        return Ok(Did::Nothing);
    };
    let Value::Number(index) = *newest else {
        return Ok(Did::Nothing);
    };
    let Some(value) = element(cells, index) else {
        return Ok(Did::Trap(TrapKind::Index));
    };
    *newest = value;
    Ok(Did::On)
}

/// Writes an element of an array; the value, which is the newest, stays, and the index under it goes.
pub fn write_element(
    trees: &Trees,
    store: &mut Store,
    values: &mut Vec<Value>,
    name: Word,
) -> Result<Did, AllocError>
    ensures made { (text : List BareDef) (slot : ℕ) → IfOk result (λ did. Performs (table trees.now) text slot (WriteElement (word (table trees.now) name)) store.old values.old.items did store.new values.new.items) }
    ensures kept { IfOk result (λ did. Kept did store.old values.old.items store.new values.new.items) }
{
    let [.., under, value] = *values.as_slice() else {
        return Ok(Did::Nothing);
    };
    let Value::Number(index) = under else {
        return Ok(Did::Nothing);
    };
    if !set_element(trees, &mut store.globals, name, index, value) {
        return Ok(Did::Trap(TrapKind::Index));
    }
    take_under(values);
    Ok(Did::On)
}

/// Takes the value under the newest one.
pub fn take_under(values: &mut Vec<Value>)
    ensures { (v under : SeenValue) (rest : List SeenValue) → newest values.old.items ≡ v ∷ under ∷ rest
        → newest values.new.items ≡ v ∷ rest }
{
    if let Some(newest) = values.pop() {
        if let Some(under) = values.last_mut() {
            *under = newest;
        }
    }
}
