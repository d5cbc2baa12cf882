//! Layouts of structs of two fields, by hand.
use c_ints::Kind;
use constant_values::ValueKind;
use dsu_io::Text;
use std::alloc::{AllocError, Global};
use type_transformers::Change;
use versioned_structs::{FieldChange, Transform};
use word_layouts::{Conversion, Layout, VersionChanges, WordChange, prepare};

/// A field of the kind `long`.
const LONG: ValueKind = ValueKind::Number(Kind::I64);

/// A conversion of objects of two fields of the kind `long`.
fn conversion(alloc: Global, changes: [FieldChange; 2]) -> Result<WordChange, AllocError> {
    let kinds = Vec::from_array(alloc, [LONG, LONG])?;
    let changes = Vec::from_array(alloc, changes)?;
    Ok(WordChange::Given(Conversion {
        kinds,
        transform: Transform::of(changes),
    }))
}

/// Each field gets the other's value.
pub fn swapped(alloc: Global) -> Result<Option<WordChange>, AllocError> {
    let change = conversion(alloc, [FieldChange::Copied(1), FieldChange::Copied(0)])?;
    Ok(Some(change))
}

/// The second field becomes zero.
pub fn added(alloc: Global) -> Result<Option<WordChange>, AllocError> {
    let change = conversion(alloc, [FieldChange::Copied(0), FieldChange::Zero(LONG)])?;
    Ok(Some(change))
}

/// The struct is there again after it was gone.
pub fn zero() -> Option<WordChange> {
    Some(WordChange::Zero)
}

/// What a version changes: the objects of the struct whose tag has the number 0.
pub fn struct_changes(
    alloc: Global,
    change: Option<WordChange>,
) -> Result<VersionChanges, AllocError> {
    let mut structs = Vec::new(alloc);
    structs.push(change)?;
    Ok(VersionChanges { structs })
}

/// The layout of a struct, if a text has it.
fn layout(alloc: Global, tag: &str, has: bool) -> Result<Option<Layout>, AllocError> {
    if !has {
        return Ok(None);
    }
    Ok(Some(Layout {
        tag: Text::of(alloc, tag)?,
        kinds: Vec::from_array(alloc, [LONG, LONG])?,
    }))
}

/// The layouts of a text, which has the structs `a` and `b`, and which may have `c` and `d`.
fn table(alloc: Global, has_c: bool, has_d: bool) -> Result<Vec<Option<Layout>>, AllocError> {
    let mut table = Vec::new(alloc);
    table.push(layout(alloc, "a", true)?)?;
    table.push(layout(alloc, "b", true)?)?;
    table.push(layout(alloc, "c", has_c)?)?;
    table.push(layout(alloc, "d", has_d)?)?;
    Ok(table)
}

/// The change of `b`, whose fields get each other's values.
fn swap_of_b(alloc: Global) -> Result<Vec<Change>, AllocError> {
    let changes = Vec::from_array(alloc, [FieldChange::Copied(1), FieldChange::Copied(0)])?;
    let swap = Change::Struct(Text::of(alloc, "b")?, Transform::of(changes));
    let mut changes = Vec::new(alloc);
    changes.push(swap)?;
    Ok(changes)
}

/// What a version changes that swaps the fields of `b`, has `c` where the one before it doesn't, and lacks `d`, which that has.
pub fn four_structs(alloc: Global) -> Result<VersionChanges, AllocError> {
    let old = table(alloc, false, true)?;
    let new = table(alloc, true, false)?;
    let changes = swap_of_b(alloc)?;
    prepare(alloc, old.as_slice(), new.as_slice(), changes.as_slice())
}

/// What a version changes that has `d` again, and changes nothing else.
pub fn last_struct_again(alloc: Global) -> Result<VersionChanges, AllocError> {
    let old = table(alloc, true, false)?;
    let new = table(alloc, true, true)?;
    prepare(alloc, old.as_slice(), new.as_slice(), &[])
}
