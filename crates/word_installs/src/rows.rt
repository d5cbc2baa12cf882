//! The new words of globals and arrays at an install.
ghost use Rattle.std.specs.Prelude.{◌≡◌, ◌≤◌, ◌^◌, IfOk, OnOk, List, All, Some, length, map, option_copied, slice_get};
ghost use Rattle.std.specs.Option.{option_flatten, option_map};
ghost use Rattle.c_tree.specs.BareExpr.{Bytes};
ghost use Rattle.c_tree.specs.BareDef.{BareDef};
ghost use Rattle.c_definitions.specs.Index.{table_of as key_table};
ghost use Rattle.type_transformers.specs.Changes.{IsChange, changing, name_of};
ghost use Rattle.source_install.specs.declared.changes.Data.TheVariants.{Global as OfGlobal};
ghost use Rattle.source_install.specs.FoundChanges.{keys};
ghost use Rattle.word_installs.specs.TextRows.{AreRowsOf};
ghost use Rattle.word_installs.specs.NewRows.{AddsWords, AreNewRows, GetsWords, first_if_new, kind_in};

use crate::changes::cells_change;
use c_ints::Kind;
use c_scope::Scopes;
use constant_values::ValueKind;
use dsu_io::Text;
use source_install::{Data, table_of};
use std::alloc::{AllocError, Global};
use type_transformers::Change;
use word_data::WordData;
use word_layouts::cells_after;

/// A global or an array of a text. Those of a text are in a table with a place for each name that a text of the run gives one, by the
/// numbers of these names.
#[derive(Drop)]
pub struct TextRow {
    pub name: Text,
    /// The kind of each cell.
    pub kind: ValueKind,
    /// The words with which it begins.
    pub first: Vec<u64>,
}

/// The words that a global or an array has after an install, by the number of its name.
#[derive(Drop)]
pub struct NewRow {
    pub number: u32,
    pub words: Vec<u64>,
}

/// Takes the memory for an install of a newer text, and makes the words of the globals and arrays that it changes: of those whose type
/// changes from the old words, of those that are new the first ones. `old` and `new` are the tables of the text in force and of the newer
/// one, and `changes` what changes between them. Nothing of what is shared changes.
///
/// It takes time linear in the names, in the changes and in the new words. A length that doesn't fit in memory is reported as out of
/// memory.
pub fn prepare_rows(
    alloc: Global,
    shared: &WordData,
    old: &[Option<TextRow>],
    new: &[Option<TextRow>],
    changes: &[Change],
) -> Result<Vec<NewRow>, AllocError>
    requires { length new.now ≤ 2 ^ 32 }
    ensures { (names : List Bytes) (p q : List BareDef) → AreRowsOf names p old.now → AreRowsOf names q new.now
        → map name_of changes.now ≡ changing p q → All (IsChange p q) changes.now
        → IfOk result (λ rows. AreNewRows names p q shared.now rows.items) }
{
    let table = table_of(alloc, Data::Global, changes)?;
    let mut rows = Vec::new(alloc);
    for n in 0..new.len() {
        let number = n as u32;
        let words = words_for(
            alloc,
            shared.row(number),
            row_at(old, n),
            row_at(new, n),
            &table,
            changes,
        )?;
        add_words(&mut rows, number, words)?;
    }
    Ok(rows)
}

/// The row at a place of a table, if there is one.
fn row_at(rows: &[Option<TextRow>], n: usize) -> Option<&TextRow>
    ensures { option_copied result ≡ option_flatten (slice_get rows.now n) }
{
    match rows.get(n) {
        Some(Some(row)) => Some(row),
        _ => None,
    }
}

/// The words that a name gets, by its rows in two texts. It gets none where it keeps its own, or has none in the newer text.
fn words_for(
    alloc: Global,
    words: &[u64],
    old: Option<&TextRow>,
    new: Option<&TextRow>,
    table: &Scopes<usize>,
    changes: &[Change],
) -> Result<Option<Vec<u64>>, AllocError>
    requires { table.now ≡ key_table (keys OfGlobal changes.now) }
    ensures { (p q : List BareDef) → map name_of changes.now ≡ changing p q → All (IsChange p q) changes.now
        → IfOk result (λ made. GetsWords p q (option_copied old.entry) (option_copied new.entry) words.now (option_map (λ v. v.items) made)) }
{
    match new {
        Some(new) => new_words(alloc, words, old, new, table, changes),
        None => Ok(None),
    }
}

/// The words that a global or an array of the newer text gets, unless it keeps its own.
fn new_words(
    alloc: Global,
    words: &[u64],
    old: Option<&TextRow>,
    new: &TextRow,
    table: &Scopes<usize>,
    changes: &[Change],
) -> Result<Option<Vec<u64>>, AllocError>
    requires { table.now ≡ key_table (keys OfGlobal changes.now) }
    ensures { (p q : List BareDef) → map name_of changes.now ≡ changing p q → All (IsChange p q) changes.now
        → IfOk result (λ made. GetsWords p q (option_copied old.entry) (Some new.now) words.now (option_map (λ v. v.items) made)) }
{
    match cells_change(table, changes, new.name.as_str()) {
        Some(change) => {
            let made = cells_after(alloc, change, kind_in(old), words)?;
            Ok(Some(made))
        }
        None => first_words(alloc, old, new),
    }
}

/// The kind of the old cells; without a row that of `int`, which nothing that had no cells is read as.
fn kind_in(row: Option<&TextRow>) -> ValueKind
    ensures { result ≡ kind_in (option_copied row.entry) }
{
    match row {
        Some(row) => row.kind,
        None => ValueKind::Number(Kind::I32),
    }
}

/// Adds the row of a number, if there are words for one.
fn add_words(rows: &mut Vec<NewRow>, number: u32, words: Option<Vec<u64>>) -> Result<(), AllocError>
    ensures { OnOk result (AddsWords number (option_map (λ v. v.items) words) rows.old.items rows.new.items) }
{
    if let Some(words) = words {
        rows.push(NewRow { number, words })?;
    }
    Ok(())
}

/// The first words of a global or an array that is new.
fn first_words(
    alloc: Global,
    old: Option<&TextRow>,
    new: &TextRow,
) -> Result<Option<Vec<u64>>, AllocError>
    ensures { IfOk result (λ made. option_map (λ v. v.items) made ≡ first_if_new (option_copied old.entry) new.now) }
{
    match old {
        Some(_) => Ok(None),
        None => {
            let first = Vec::from_slice(alloc, new.first.as_slice())?;
            Ok(Some(first))
        }
    }
}
