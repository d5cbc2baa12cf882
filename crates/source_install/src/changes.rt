//! Changes of data by name.
ghost use Rattle.std.specs.Prelude.{◌≡◌, slice_get, option_copied, IfOk, OnOk};
ghost use Rattle.std.specs.Option.{option_and_then};
ghost use Rattle.c_definitions.specs.Index.{place_of, table_of, with_name};
ghost use Rattle.source_install.specs.FoundChanges.{key_of, keys, found, transform_in, cells_in};

use c_scope::Scopes;
use dsu_io::Text;
use std::alloc::{AllocError, Global};
use type_transformers::{Change, GlobalChange};
use versioned_structs::Transform;

/// Data that an install may change: the fields of a struct's objects, or the cells of a global.
#[derive(Clone, Copy)]
pub enum Data {
    Struct,
    Global,
}

/// What a change is found by: the tag of a struct, the name of a global.
fn key(kind: Data, change: &Change) -> Option<&Text>
    ensures { option_copied result ≡ key_of kind change.now }
{
    match (kind, change) {
        (Data::Struct, Change::Struct(tag, _)) => Some(tag),
        (Data::Global, Change::Global(name, _)) => Some(name),
        _ => None,
    }
}

/// Gives a name, if there is one, its place in the table, unless the table has it.
fn add_key(table: &mut Scopes<usize>, name: Option<&Text>, place: usize) -> Result<(), AllocError>
    ensures { OnOk result (table.new ≡ with_name (option_copied name.entry) place table.old) }
{
    if let Some(name) = name {
        table.declare(name.as_str(), place)?;
    }
    Ok(())
}

/// A table of the changes of one kind of data, from tags or names to places among the changes. Where two changes have one name it
/// has the first. It fails only when out of memory.
pub fn table_of(alloc: Global, kind: Data, changes: &[Change]) -> Result<Scopes<usize>, AllocError>
    ensures { IfOk result (λ table. table ≡ table_of (keys kind changes.now)) }
{
    let mut table = Scopes::new(alloc);
    for place in 0..changes.len() {
        add_key(&mut table, key(kind, &changes[place]), place)?;
    }
    Ok(table)
}

/// The place of the first change that is found by a name.
#[tactic(auto, using(c_definitions::proofs::Index::look_up_table))]
fn place_of(table: &Scopes<usize>, kind: Data, changes: &[Change], name: &str) -> Option<usize>
    requires { table.now ≡ table_of (keys kind changes.now) }
    ensures { result ≡ place_of name.now (keys kind changes.now) }
{
    table.find(name).copied()
}

/// The change at a place.
fn at(changes: &[Change], place: Option<usize>) -> Option<&Change>
    ensures { option_copied result ≡ option_and_then (slice_get changes.now) place }
{
    match place {
        Some(place) => changes.get(place),
        None => None,
    }
}

/// The first change that is found by a name.
fn found<'a>(
    table: &Scopes<usize>,
    kind: Data,
    changes: &'a [Change],
    name: &str,
) -> Option<&'a Change>
    requires { table.now ≡ table_of (keys kind changes.now) }
    ensures { option_copied result ≡ found kind changes.now name.now }
{
    at(changes, place_of(table, kind, changes, name))
}

/// The change of the fields of the struct with a tag, by the table of the changes of structs; none where its layout stays, or
/// where the struct is new.
pub fn transform<'a>(
    structs: &Scopes<usize>,
    changes: &'a [Change],
    tag: &str,
) -> Option<&'a Transform>
    requires { structs.now ≡ table_of (keys Data.Struct changes.now) }
    ensures { option_copied result ≡ transform_in (found Data.Struct changes.now tag.now) }
{
    match found(structs, Data::Struct, changes, tag) {
        Some(Change::Struct(_, transform)) => Some(transform),
        _ => None,
    }
}

/// How the cells of a global change.
pub(crate) fn cells_change<'a>(
    globals: &Scopes<usize>,
    changes: &'a [Change],
    name: &str,
) -> Option<&'a GlobalChange>
    requires { globals.now ≡ table_of (keys Data.Global changes.now) }
    ensures { option_copied result ≡ cells_in (found Data.Global changes.now name.now) }
{
    match found(globals, Data::Global, changes, name) {
        Some(Change::Global(_, change)) => Some(change),
        _ => None,
    }
}
