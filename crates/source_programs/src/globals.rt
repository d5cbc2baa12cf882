//! Globals and arrays, with the values of their cells.
ghost use Rattle.std.specs.Prelude.{◌≡◌, IfOk, bytes_eq, filter_map, map, option_map};
ghost use Rattle.std.specs.List.{position};
ghost use Rattle.c_tree.specs.Bare.{bare_def, bare_kind};
ghost use Rattle.c_tree.specs.BareExpr.{Bytes};
ghost use Rattle.c_semantics.specs.Constants.{initial_cells};
ghost use Rattle.source_model.specs.Worlds.{cells_at_first};
ghost use Rattle.source_programs.specs.Globals.{cells_of, globals_of};
ghost use Rattle.source_programs.specs.Places.{place_in};

use crate::constant::initial_cells;
use crate::places::Places;
use c_tree::{Def, DefKind};
use local_evaluation::Value;
use std::alloc::{AllocError, Global};

/// A global variable, which has one cell, or an array.
#[derive(Drop)]
pub struct Cells {
    pub name: String,
    pub cells: Vec<Value>,
}

/// The globals and arrays, in the text's order.
#[derive(Drop)]
pub struct Globals {
    pub list: Vec<Cells>,
    /// Where the first of a name is.
    pub places: Places,
    ghost placed: { (name : Bytes) → place_in places name ≡ position (λ g. bytes_eq name g.name) (globals_of list.items) },
}

/// The globals and arrays of a text with their first values, found by their names. It takes time linear in the text and in the
/// cells. An error is lack of memory, or an array whose length doesn't fit in memory.
pub fn first_globals(alloc: Global, text: &[Def]) -> Result<Globals, AllocError>
    ensures { IfOk result (λ globals. globals_of globals.list.items ≡ filter_map cells_at_first (map bare_def text.now)) }
{
    let list = globals_of(alloc, text)?;
    found_by_name(alloc, list)
}

/// Globals and arrays, found by their names.
pub fn found_by_name(alloc: Global, list: Vec<Cells>) -> Result<Globals, AllocError>
    ensures { IfOk result (λ globals. globals.list.items ≡ list.items) }
{
    let mut places = Places::new(alloc);
    let mut left = list.len();
    while left > 0 {
        left -= 1;
        places.put(list[left].name.as_str(), left)?;
    }
    Ok(Globals { list, places })
}

/// The globals and arrays of a text, in its order, with their first values.
fn globals_of(alloc: Global, text: &[Def]) -> Result<Vec<Cells>, AllocError>
    ensures { IfOk result (λ cells. globals_of cells.items ≡ filter_map cells_at_first (map bare_def text.now)) }
{
    let mut globals = Vec::new(alloc);
    for definition in text {
        if let Some(cells) = cells_if(alloc, definition)? {
            globals.push(cells)?;
        }
    }
    Ok(globals)
}

/// The cells of a definition, if it is a global variable or an array.
fn cells_if(alloc: Global, definition: &Def) -> Result<Option<Cells>, AllocError>
    ensures { IfOk result (λ made. option_map cells_of made ≡ cells_at_first (bare_def definition.now)) }
{
    match &definition.kind {
        DefKind::Global(declaration) => {
            let made = named_cells(alloc, declaration.name.text.as_str(), &definition.kind)?;
            Ok(Some(made))
        }
        DefKind::Array(array) => {
            let made = named_cells(alloc, array.name.text.as_str(), &definition.kind)?;
            Ok(Some(made))
        }
        DefKind::Struct(_, _)
        | DefKind::Forward(_)
        | DefKind::Mutex(_)
        | DefKind::Function(_)
        | DefKind::Prototype(_)
        | DefKind::TransformStruct(_)
        | DefKind::TransformGlobal(_, _) => Ok(None),
    }
}

/// The first cells of a global variable or an array with a name. An error is as that of [`first_globals`].
pub fn named_cells(alloc: Global, name: &str, kind: &DefKind) -> Result<Cells, AllocError>
    ensures { IfOk result (λ made. cells_of made ≡ record { name = name.now; cells = initial_cells (bare_kind kind.now) }) }
{
    let name = String::from_str(alloc, name)?;
    let cells = initial_cells(alloc, kind)?;
    Ok(Cells { name, cells })
}
