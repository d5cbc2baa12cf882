//! The globals of a newer text, with the cells that they have after its install.
ghost use Rattle.std.specs.Prelude.{◌≡◌, [], ◌++◌, unwrap_or, All, IsTrue, Some, ℕ, option_copied, IfOk, OnOk, bytes_eq, find, if◌then◌else◌, map};
ghost use Rattle.std.specs.List.{cons_option};
ghost use Rattle.std.specs.Option.{option_map};
ghost use Rattle.c_tree.specs.Bare.{bare_def, bare_kind};
ghost use Rattle.c_definitions.specs.Index.{table_of as key_table};
ghost use Rattle.c_semantics.specs.Texts.{defined, definition};
ghost use Rattle.source_model.specs.Worlds.{World};
ghost use Rattle.source_model.specs.Installs.{carried, global_after, has_cells, installed};
ghost use Rattle.local_evaluation.specs.Values.{seen};
ghost use Rattle.source_programs.specs.Globals.{cells_of, globals_of};
ghost use Rattle.source_programs.specs.Programs.{text_at};
ghost use Rattle.source_install.specs.declared.changes.Data.TheVariants.{Global as OfGlobal};
ghost use Rattle.source_install.specs.FoundChanges.{keys};
ghost use Rattle.source_install.specs.NewData.{Follows, IsInstall};
ghost use Rattle.source_install.specs.OwnCells.{IsOwn, cells_by_if};

use crate::changes::{Data, cells_change, table_of};
use c_scope::Scopes;
use c_tree::{Def, DefKind};
use local_evaluation::Value;
use patch_compare::same_interface;
use source_data::Store;
use source_programs::{Cells, Globals, Programs, found_by_name, named_cells};
use std::alloc::{AllocError, Global};
use type_transformers::{Change, GlobalChange, cells_after};

/// The globals of the newer text, each with its cells.
pub(crate) fn new_globals(
    alloc: Global,
    program: &Programs,
    store: &Store,
    number: usize,
    changes: &[Change],
) -> Result<Globals, AllocError>
    ensures { (w : World) → IsInstall program.now number changes.now store.now w
        → IfOk result (λ globals. globals_of globals.list.items ≡ (installed (text_at program.now number) w).globals) }
{
    let list = all_cells(alloc, program, store, number, changes)?;
    found_by_name(alloc, list)
}

/// The globals and arrays of the newer text, in its order, each with its cells.
fn all_cells(
    alloc: Global,
    program: &Programs,
    store: &Store,
    number: usize,
    changes: &[Change],
) -> Result<Vec<Cells>, AllocError>
    ensures { (w : World) → IsInstall program.now number changes.now store.now w
        → IfOk result (λ list. globals_of list.items ≡ (installed (text_at program.now number) w).globals) }
{
    let table = table_of(alloc, Data::Global, changes)?;
    let definitions = definitions_in(program, number);
    let mut list = Vec::new(alloc);
    for definition in definitions {
        let cells = cells_if(alloc, program, &table, changes, &store.globals, definition)?;
        push_if(&mut list, cells)?;
    }
    Ok(list)
}

/// The definitions of a text; none where there is no text of that number.
fn definitions_in(program: &Programs, number: usize) -> &[Def]
    ensures text { map bare_def result.now ≡ text_at program.now number }
    ensures own { All (IsOwn (text_at program.now number)) (text_at program.now number) }
{
    match program.text(number) {
        Some(text) => text.program().definitions.as_slice(),
        None => &[],
    }
}

/// Adds cells, if there are any.
fn push_if(list: &mut Vec<Cells>, cells: Option<Cells>) -> Result<(), AllocError>
    ensures { OnOk result (globals_of list.new.items ≡ globals_of list.old.items ++ cons_option (option_map cells_of cells) []) }
{
    if let Some(cells) = cells {
        list.push(cells)?;
    }
    Ok(())
}

/// The cells of a definition of the newer text, if it is a global variable or an array.
fn cells_if(
    alloc: Global,
    program: &Programs,
    table: &Scopes<usize>,
    changes: &[Change],
    old: &Globals,
    definition: &Def,
) -> Result<Option<Cells>, AllocError>
    requires { table.now ≡ key_table (keys OfGlobal changes.now) }
    ensures { (number : ℕ) (w : World) → Follows program.now number changes.now w → w.globals ≡ globals_of old.now.list.items
        → let q = text_at program.now number in IsOwn q (bare_def definition.now)
        → IfOk result (λ made. option_map cells_of made ≡ global_after w w.text q (bare_def definition.now)) }
{
    let kind = &definition.kind;
    match kind {
        DefKind::Global(variable) => {
            let name = variable.name.text.as_str();
            let cells = new_cells(alloc, program, table, changes, old, name, kind)?;
            Ok(Some(cells))
        }
        DefKind::Array(array) => {
            let name = array.name.text.as_str();
            let cells = new_cells(alloc, program, table, changes, old, name, kind)?;
            Ok(Some(cells))
        }
        DefKind::Struct(_, _)
        | DefKind::Forward(_)
        | DefKind::Mutex(_)
        | DefKind::Function(_)
        | DefKind::Prototype(_)
        | DefKind::TransformStruct(_)
        | DefKind::TransformGlobal(_, _) => Ok(None),
    }
}

/// The cells of a global variable or an array of the newer text, by its name.
fn new_cells(
    alloc: Global,
    program: &Programs,
    table: &Scopes<usize>,
    changes: &[Change],
    old: &Globals,
    name: &str,
    kind: &DefKind,
) -> Result<Cells, AllocError>
    requires { table.now ≡ key_table (keys OfGlobal changes.now) }
    ensures { (number : ℕ) (w : World) → Follows program.now number changes.now w → w.globals ≡ globals_of old.now.list.items
        → let q = text_at program.now number in let d = bare_kind kind.now in
        IsOwn q d → IsTrue (has_cells d) → defined d ≡ Some name.now
        → IfOk result (λ made. cells_of made
        ≡ record { name = name.now; cells = carried w w.text q d name.now (definition w.text name.now) }) }
{
    match program.tree(name) {
        Some(then) => {
            let stays = same_interface(&then.kind, kind);
            let change = cells_change(table, changes, name);
            let cells = cells_from(alloc, stays, change, slice_of(old_cells(old, name)))?;
            let name = String::from_str(alloc, name)?;
            Ok(Cells { name, cells })
        }
        None => named_cells(alloc, name, kind),
    }
}

/// New cells from the old ones: they stay where the interface does, else they come as the change says. Where there is none the
/// name is no variable any more, and has no cells.
fn cells_from(
    alloc: Global,
    stays: bool,
    change: Option<&GlobalChange>,
    cells: &[Value],
) -> Result<Vec<Value>, AllocError>
    ensures { IfOk result (λ new. map seen new.items
        ≡ (if stays then map seen cells.now else cells_by_if (option_copied change.entry) (map seen cells.now))) }
{
    if stays {
        return Vec::from_slice(alloc, cells);
    }
    match change {
        Some(change) => cells_after(alloc, change, cells),
        None => Ok(Vec::new(alloc)),
    }
}

/// The cells of a global, if it is there.
fn old_cells<'a>(globals: &'a Globals, name: &str) -> Option<&'a [Value]>
    ensures { option_map (λ c. map seen c.now) result
        ≡ option_map (λ g. g.cells) (find (λ g. bytes_eq name.now g.name) (globals_of globals.now.list.items)) }
{
    match globals.places.find(name) {
        Some(place) => Some(globals.list[place].cells.as_slice()),
        None => None,
    }
}

/// The cells of a global; none where it isn't there.
fn slice_of(cells: Option<&[Value]>) -> &[Value]
    ensures { result.now ≡ unwrap_or (option_copied cells.entry) [] }
{
    match cells {
        Some(cells) => cells,
        None => &[],
    }
}
