//! The changes of globals and arrays, by name.
ghost use Rattle.std.specs.Prelude.{◌≡◌, option_copied, slice_get};
ghost use Rattle.std.specs.Option.{option_and_then};
ghost use Rattle.c_definitions.specs.Index.{place_of, table_of};
ghost use Rattle.source_install.specs.declared.changes.Data.TheVariants.{Global as OfGlobal};
ghost use Rattle.source_install.specs.FoundChanges.{found, keys};
ghost use Rattle.word_installs.specs.NewRows.{cells_change};

use c_scope::Scopes;
use type_transformers::{Change, GlobalChange};

/// The change of the cells of a global, by its name. The table has the place of each name among the changes.
pub(crate) fn cells_change<'a>(
    table: &Scopes<usize>,
    changes: &'a [Change],
    name: &str,
) -> Option<&'a GlobalChange>
    requires { table.now ≡ table_of (keys OfGlobal changes.now) }
    ensures { option_copied result ≡ cells_change changes.now name.now }
{
    match first_change(table, changes, name) {
        Some(Change::Global(_, cells)) => Some(cells),
        _ => None,
    }
}

/// The first change of the cells of a name.
fn first_change<'a>(table: &Scopes<usize>, changes: &'a [Change], name: &str) -> Option<&'a Change>
    requires { table.now ≡ table_of (keys OfGlobal changes.now) }
    ensures { option_copied result ≡ found OfGlobal changes.now name.now }
{
    at(changes, place_of(table, changes, name))
}

/// Its place.
#[tactic(auto, using(c_definitions::proofs::Index::look_up_table))]
fn place_of(table: &Scopes<usize>, changes: &[Change], name: &str) -> Option<usize>
    requires { table.now ≡ table_of (keys OfGlobal changes.now) }
    ensures { result ≡ place_of name.now (keys OfGlobal changes.now) }
{
    table.find(name).copied()
}

/// The change at a place.
fn at(changes: &[Change], place: Option<usize>) -> Option<&Change>
    ensures { option_copied result ≡ option_and_then (slice_get changes.now) place }
{
    match place {
        Some(place) => changes.get(place),
        None => None,
    }
}
