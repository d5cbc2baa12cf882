//! The tables of texts, by the numbers of the names of all of them.
ghost use Rattle.std.specs.Prelude.{◌≡◌, ◌≤◌, ◌^◌, IfErr, IfOk, List, Some, length, map, not, string_bytes, ℕ};
ghost use Rattle.c_tree.specs.Bare.{bare_binding, bare_def, bare_kind};
ghost use Rattle.c_tree.specs.BareDef.{BareDef};
ghost use Rattle.c_semantics.specs.Constants.{initial_cells};
ghost use Rattle.c_semantics.specs.Names.{struct_name};
ghost use Rattle.c_semantics.specs.Texts.{definition};
ghost use Rattle.source_model.specs.Installs.{is_mutex};
ghost use Rattle.constant_values.specs.Kinds.{kind_of as kind_of_type};
ghost use Rattle.bytecode.specs.Words.{Naming, word_of};
ghost use Rattle.source_programs.specs.Programs.{text_in};
ghost use Rattle.code_runs.specs.CodeData.{Names as RunNames};
ghost use Rattle.code_image.specs.Images.{names_in};
ghost use Rattle.word_installs.specs.TextRows.{IsRowOf};
ghost use Rattle.word_layouts.specs.TextLayouts.{IsLayout, IsLayoutOf};
ghost use Rattle.accepted_stops.specs.FittingCode.{StructIsSmall};
ghost use Rattle.image_load.specs.declared.fault.LoadFault.TheVariants.{Memory};
ghost use Rattle.image_load.specs.Loaded.{AreAcceptedAs};
ghost use Rattle.image_load.specs.Numbering.{AreTables};
ghost use Rattle.image_load.specs.TextTables.{AreDataOf, AreNamesOf, HaveNumbers, HaveRows, IsDataOf};

use crate::cells::row;
use crate::fault::LoadFault;
use crate::fields::definition;
use crate::numbers::Numbers;
use crate::tables::small;
use crate::text_data::TextData;
use accepted_stops::accepted_structs_are_small;
use c_definitions::Known;
use c_tree::{Binding, Def, DefKind};
use c_types::Typed;
use constant_values::{ValueKind, kind_of};
use dsu_io::Text;
use name_resolution::name_of_struct;
use source_programs::{Cells, named_cells};
use std::alloc::{AllocError, Global};
use word_installs::TextRow;
use word_layouts::Layout;

/// So many members at most has a struct.
const MOST_FIELDS: usize = 16;

/// The tables of each text of a run.
pub(crate) fn tables_of(
    alloc: Global,
    numbers: &Numbers,
    texts: &[Typed],
) -> Result<Vec<TextData>, LoadFault>
    requires few { length numbers.now.cells.names.items ≤ 2 ^ 32 }
    requires numbers { AreTables (names_in (map text_in texts.now)) numbers.now }
    ensures tables { IfOk result (λ made. AreDataOf (map text_in texts.now) made.items) }
    ensures fault { IfErr result (λ fault. AreAcceptedAs (map text_in texts.now) → fault ≡ Memory) }
{
    accepted_structs_are_small();
    let mut made = Vec::with_capacity(alloc, texts.len())?;
    for text in texts {
        let program = text.program();
        let tables = tables_in(alloc, numbers, program.definitions.as_slice())?;
        made.push(tables)?;
    }
    Ok(made)
}

/// The tables of a text.
fn tables_in(alloc: Global, numbers: &Numbers, text: &[Def]) -> Result<TextData, LoadFault>
    requires { length numbers.now.cells.names.items ≤ 2 ^ 32 }
    ensures tables { let text = map bare_def text.now in IfOk result (λ made.
        (names : RunNames) → AreTables names numbers.now → AreNamesOf names text → IsDataOf names text made) }
    ensures fault { let text = map bare_def text.now in IfErr result (λ fault.
        ((tag : List ℕ) (d : BareDef) → definition text (struct_name tag) ≡ Some d → StructIsSmall text tag d) → fault ≡ Memory) }
{
    let known = Known::of(alloc, text)?;
    known_tables(alloc, numbers, &known)
}

/// The same, where the text's definitions are known.
fn known_tables(alloc: Global, numbers: &Numbers, known: &Known) -> Result<TextData, LoadFault>
    requires { length numbers.now.cells.names.items ≤ 2 ^ 32 }
    ensures tables { let text = map bare_def known.now in IfOk result (λ made.
        (names : RunNames) → AreTables names numbers.now → AreNamesOf names text → IsDataOf names text made) }
    ensures fault { let text = map bare_def known.now in IfErr result (λ fault.
        ((tag : List ℕ) (d : BareDef) → definition text (struct_name tag) ≡ Some d → StructIsSmall text tag d) → fault ≡ Memory) }
{
    let rows = rows_of(alloc, numbers.cells.names.as_slice(), known)?;
    let layouts = layouts_of(alloc, numbers.tags.names.as_slice(), known)?;
    let gone = gone_from(alloc, numbers.mutexes.names.as_slice(), known)?;
    Ok(TextData {
        rows,
        layouts,
        gone,
    })
}

/// The globals and arrays of a text, by the numbers of some names.
fn rows_of(
    alloc: Global,
    names: &[String],
    known: &Known,
) -> Result<Vec<Option<TextRow>>, LoadFault>
    ensures rows { IfOk result (λ rows. HaveRows (IsRowOf (map bare_def known.now)) (map string_bytes names.now) rows.items) }
    ensures fault { IfErr result (λ fault. fault ≡ Memory) }
{
    let mut rows = Vec::with_capacity(alloc, names.len())?;
    for name in names {
        let made = row_in(alloc, known, name.as_str())?;
        rows.push(made)?;
    }
    Ok(rows)
}

/// The global or the array of a name, if a text has one.
fn row_in(alloc: Global, known: &Known, name: &str) -> Result<Option<TextRow>, LoadFault>
    ensures row { IfOk result (IsRowOf (map bare_def known.now) name.now) }
    ensures fault { IfErr result (λ fault. fault ≡ Memory) }
{
    match definition(known, name) {
        Some(own) => row_if(alloc, name, &own.kind),
        None => Ok(None),
    }
}

/// The same, where a text defines the name.
fn row_if(alloc: Global, name: &str, kind: &DefKind) -> Result<Option<TextRow>, LoadFault>
    ensures row { IfOk result (λ row. (text : List BareDef) → definition text name.now ≡ Some (bare_kind kind.now) → IsRowOf text name.now row) }
    ensures fault { IfErr result (λ fault. fault ≡ Memory) }
{
    match kind {
        DefKind::Global(declaration) => Ok(Some(row_with(
            alloc,
            name,
            kind_of(&declaration.declared),
            kind,
        )?)),
        DefKind::Array(array) => Ok(Some(row_with(alloc, name, kind_of(&array.element), kind)?)),
        _ => Ok(None),
    }
}

/// A global or an array, with cells of a kind.
fn row_with(
    alloc: Global,
    name: &str,
    cells: ValueKind,
    kind: &DefKind,
) -> Result<TextRow, LoadFault>
    ensures name { IfOk result (λ row. row.name ≡ name.now) }
    ensures cells { IfOk result (λ row. row.kind ≡ cells) }
    ensures first { IfOk result (λ row. (naming : Naming) → row.first.items ≡ map (word_of naming) (initial_cells (bare_kind kind.now))) }
    ensures fault { IfErr result (λ fault. fault ≡ Memory) }
{
    let made = named_cells(alloc, name, kind)?;
    let first = row(alloc, made.cells.as_slice())?;
    let Cells { name, .. } = made;
    Ok(TextRow {
        name: Text::from(name),
        kind: cells,
        first,
    })
}

/// The structs of a text, by the numbers of some tags.
fn layouts_of(
    alloc: Global,
    tags: &[String],
    known: &Known,
) -> Result<Vec<Option<Layout>>, LoadFault>
    ensures layouts { IfOk result (λ made. HaveRows (IsLayoutOf (map bare_def known.now)) (map string_bytes tags.now) made.items) }
    ensures fault { let text = map bare_def known.now in IfErr result (λ fault.
        ((tag : List ℕ) (d : BareDef) → definition text (struct_name tag) ≡ Some d → StructIsSmall text tag d) → fault ≡ Memory) }
{
    let mut layouts = Vec::with_capacity(alloc, tags.len())?;
    for tag in tags {
        let made = layout_in(alloc, known, tag.as_str())?;
        layouts.push(made)?;
    }
    Ok(layouts)
}

/// The struct of a tag, if a text has one.
fn layout_in(alloc: Global, known: &Known, tag: &str) -> Result<Option<Layout>, LoadFault>
    ensures layout { IfOk result (IsLayoutOf (map bare_def known.now) tag.now) }
    ensures fault { let text = map bare_def known.now in IfErr result (λ fault.
        ((d : BareDef) → definition text (struct_name tag.now) ≡ Some d → StructIsSmall text tag.now d) → fault ≡ Memory) }
{
    let key = name_of_struct(alloc, tag)?;
    let Some(own) = definition(known, key.as_str()) else {
        return Ok(None);
    };
    let made = layout_with(alloc, tag, &own.kind)?;
    Ok(Some(made))
}

/// The struct of a tag, by its definition. A fault where that is another one, or where it has more than 16 members.
fn layout_with(alloc: Global, tag: &str, kind: &DefKind) -> Result<Layout, LoadFault>
    ensures layout { IfOk result (λ made. (text : List BareDef) → definition text (struct_name tag.now) ≡ Some (bare_kind kind.now)
        → IsLayout text tag.now made) }
    ensures fault { IfErr result (λ fault. (text : List BareDef) → StructIsSmall text tag.now (bare_kind kind.now) → fault ≡ Memory) }
{
    let DefKind::Struct(_, members) = kind else {
        return Err(LoadFault::NotAccepted);
    };
    let members = members.as_slice();
    if members.len() > MOST_FIELDS {
        return Err(LoadFault::NotAccepted);
    }
    let kinds = kinds_of(alloc, members)?;
    let own = String::from_str(alloc, tag)?;
    Ok(Layout {
        tag: Text::from(own),
        kinds,
    })
}

/// The kinds of some members.
fn kinds_of(alloc: Global, members: &[Binding]) -> Result<Vec<ValueKind>, AllocError>
    ensures { IfOk result (λ kinds. kinds.items ≡ map (λ b. kind_of_type b.declared) (map bare_binding members.now)) }
{
    let mut kinds = Vec::with_capacity(alloc, members.len())?;
    for member in members {
        kinds.push(kind_of(&member.declared))?;
    }
    Ok(kinds)
}

/// The numbers of those of some names that a text doesn't define as mutexes.
fn gone_from(alloc: Global, names: &[String], known: &Known) -> Result<Vec<u32>, AllocError>
    ensures { let text = map bare_def known.now in IfOk result (λ gone.
        HaveNumbers (λ name. not (is_mutex (definition text name))) (map string_bytes names.now) gone.items) }
{
    let mut gone = Vec::new(alloc);
    for place in 0..names.len() {
        if !has_mutex(known, names[place].as_str()) {
            gone.push(small(place)?)?;
        }
    }
    Ok(gone)
}

/// Whether a text defines a name as a mutex.
fn has_mutex(known: &Known, name: &str) -> bool
    ensures { result ≡ is_mutex (definition (map bare_def known.now) name.now) }
{
    match definition(known, name) {
        Some(own) => is_a_mutex(&own.kind),
        None => false,
    }
}

/// Whether a definition is that of a mutex.
fn is_a_mutex(kind: &DefKind) -> bool
    ensures { result ≡ is_mutex (Some (bare_kind kind.now)) }
{
    match kind {
        DefKind::Mutex(_) => true,
        _ => false,
    }
}
