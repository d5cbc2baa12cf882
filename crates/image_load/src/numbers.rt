//! The numbers of the names of all texts of a run.
ghost use Rattle.std.specs.Prelude.{◌≡◌, ◌∷◌, IfOk, List, OnOk, filter_map, flat_map, length, map, option_copied, true};
ghost use Rattle.std.specs.Option.{option_map};
ghost use Rattle.c_tree.specs.Bare.{bare_def, bare_kind};
ghost use Rattle.c_tree.specs.BareExpr.{Bytes};
ghost use Rattle.source_model.specs.Worlds.{cells_at_first};
ghost use Rattle.source_programs.specs.Programs.{text_in};
ghost use Rattle.code_image.specs.Images.{each_once, mutex_name as name_of_mutex, names_in, tag_of, with_more};
ghost use Rattle.image_load.specs.Loaded.{AcceptedTextHasFewNames, HasFewNames};
ghost use Rattle.image_load.specs.Numbering.{AreTables, IsTable, name_by};

use crate::tables::NameTable;
use accepted_stops::accepted_names_are_few;
use c_tree::{Def, DefKind};
use c_types::Typed;
use std::alloc::{AllocError, Global};

/// So many mutexes, and so many tags, have numbers at most.
pub(crate) const MOST_NAMES: usize = 2048;

/// What has numbers by name.
#[derive(Clone, Copy)]
pub(crate) enum Named {
    /// Globals and arrays.
    Cells,
    Mutexes,
    Tags,
}

/// The names of all texts of a run, each once, in the order in which they come first.
#[derive(Drop)]
pub(crate) struct Numbers {
    pub cells: NameTable,
    pub mutexes: NameTable,
    pub tags: NameTable,
}

/// Those of some texts.
pub(crate) fn numbers_of(alloc: Global, texts: &[Typed]) -> Result<Numbers, AllocError>
    ensures { IfOk result (AreTables (names_in (map text_in texts.now))) }
{
    let cells = table_of(alloc, Named::Cells, texts)?;
    let mutexes = table_of(alloc, Named::Mutexes, texts)?;
    let tags = table_of(alloc, Named::Tags, texts)?;
    Ok(Numbers {
        cells,
        mutexes,
        tags,
    })
}

/// Whether all mutexes and all tags of a text and of those that may follow it have numbers, so that they can be loaded together. It takes
/// time n log n in the texts.
pub fn has_few_names(alloc: Global, text: &Typed, offers: &[Typed]) -> Result<bool, AllocError>
    ensures few { IfOk result (λ few. few ≡ true → HasFewNames (map text_in (text.now ∷ offers.now))) }
    ensures many { IfOk result (λ few. HasFewNames (map text_in (text.now ∷ offers.now)) → few ≡ true) }
{
    let mutexes = count(alloc, Named::Mutexes, text, offers)?;
    let tags = count(alloc, Named::Tags, text, offers)?;
    Ok(mutexes <= MOST_NAMES && tags <= MOST_NAMES)
}

/// A text that is accepted, and that none follows, can be loaded.
pub fn accepted_text_has_few_names()
    ensures { AcceptedTextHasFewNames }
{
    accepted_names_are_few();
}

/// How many names there are.
fn count(alloc: Global, named: Named, text: &Typed, offers: &[Typed]) -> Result<usize, AllocError>
    ensures { IfOk result (λ n. n ≡ length (each_once (flat_map (filter_map (name_by named)) (map text_in (text.now ∷ offers.now))))) }
{
    let mut table = NameTable::new(alloc);
    let program = text.program();
    add_names(alloc, &mut table, named, program.definitions.as_slice())?;
    add_texts(alloc, &mut table, named, offers)?;
    Ok(table.names.len())
}

/// The names of some texts.
fn table_of(alloc: Global, named: Named, texts: &[Typed]) -> Result<NameTable, AllocError>
    ensures { IfOk result (IsTable (each_once (flat_map (filter_map (name_by named)) (map text_in texts.now)))) }
{
    let mut table = NameTable::new(alloc);
    add_texts(alloc, &mut table, named, texts)?;
    Ok(table)
}

/// Adds the names of some texts.
fn add_texts(
    alloc: Global,
    table: &mut NameTable,
    named: Named,
    texts: &[Typed],
) -> Result<(), AllocError>
    ensures { OnOk result ((names : List Bytes) → IsTable names table.old
        → IsTable (with_more names (flat_map (filter_map (name_by named)) (map text_in texts.now))) table.new) }
{
    for text in texts {
        let program = text.program();
        add_names(alloc, table, named, program.definitions.as_slice())?;
    }
    Ok(())
}

/// Adds those of a text.
fn add_names(
    alloc: Global,
    table: &mut NameTable,
    named: Named,
    text: &[Def],
) -> Result<(), AllocError>
    ensures { OnOk result ((names : List Bytes) → IsTable names table.old
        → IsTable (with_more names (filter_map (name_by named) (map bare_def text.now))) table.new) }
{
    for definition in text {
        table.add_if(alloc, name_in(named, &definition.kind))?;
    }
    Ok(())
}

/// The name by which a definition is numbered, if it is.
fn name_in(named: Named, kind: &DefKind) -> Option<&str>
    ensures { option_copied result ≡ name_by named (bare_kind kind.now) }
{
    match named {
        Named::Cells => cells_name(kind),
        Named::Mutexes => mutex_name(kind),
        Named::Tags => tag(kind),
    }
}

/// The name of a global or an array.
fn cells_name(kind: &DefKind) -> Option<&str>
    ensures { option_copied result ≡ option_map (λ c. c.name) (cells_at_first (bare_kind kind.now)) }
{
    match kind {
        DefKind::Global(declaration) => Some(declaration.name.text.as_str()),
        DefKind::Array(array) => Some(array.name.text.as_str()),
        _ => None,
    }
}

/// The name of a mutex.
fn mutex_name(kind: &DefKind) -> Option<&str>
    ensures { option_copied result ≡ name_of_mutex (bare_kind kind.now) }
{
    match kind {
        DefKind::Mutex(name) => Some(name.text.as_str()),
        _ => None,
    }
}

/// The tag of a struct.
fn tag(kind: &DefKind) -> Option<&str>
    ensures { option_copied result ≡ tag_of (bare_kind kind.now) }
{
    match kind {
        DefKind::Struct(tag, _) => Some(tag.text.as_str()),
        _ => None,
    }
}
