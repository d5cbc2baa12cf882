//! The changes of objects where a newer text follows the text in force.
ghost use Rattle.std.specs.Prelude.{◌≡◌, All, IfOk, List, map, option_copied, slice_get};
ghost use Rattle.std.specs.Option.{option_flatten};
ghost use Rattle.c_tree.specs.BareExpr.{Bytes};
ghost use Rattle.c_tree.specs.BareDef.{BareDef};
ghost use Rattle.c_definitions.specs.Index.{table_of as key_table};
ghost use Rattle.c_semantics.specs.Names.{struct_name};
ghost use Rattle.c_semantics.specs.Texts.{definition};
ghost use Rattle.typed_trees.specs.ExpressionTypes.{IsStruct};
ghost use Rattle.type_transformers.specs.Changes.{IsChange, changing, name_of};
ghost use Rattle.source_install.specs.declared.changes.Data.TheVariants.{Struct as OfStruct};
ghost use Rattle.source_install.specs.FoundChanges.{keys};
ghost use Rattle.word_layouts.specs.Copies.{AreCopies};
ghost use Rattle.word_layouts.specs.TextLayouts.{AreLayoutsOf, IsLayout, IsLayoutOf};
ghost use Rattle.word_layouts.specs.WordChanges.{AreChangesOf, IsWordChange};

use crate::change::{Conversion, WordChange};
use crate::copies::copied;
use crate::layout::Layout;
use crate::layouts::VersionChanges;
use c_scope::Scopes;
use source_install::{Data, table_of, transform};
use std::alloc::{AllocError, Global};
use type_transformers::Change;
use versioned_structs::Transform;

/// What changes objects where a newer text follows the text in force. `old` and `new` are the tables of the layouts of both, and `changes`
/// what changes between them. It copies the transforms, and takes time linear in the tags and in the changes. It fails only when out of
/// memory.
pub fn prepare(
    alloc: Global,
    old: &[Option<Layout>],
    new: &[Option<Layout>],
    changes: &[Change],
) -> Result<VersionChanges, AllocError>
    ensures { (p q : List BareDef) (tags : List Bytes) → AreLayoutsOf tags p old.now → AreLayoutsOf tags q new.now
        → map name_of changes.now ≡ changing p q → All (IsChange p q) changes.now → IfOk result (AreChangesOf p q tags) }
{
    let table = table_of(alloc, Data::Struct, changes)?;
    let mut structs = Vec::with_capacity(alloc, new.len())?;
    for place in 0..new.len() {
        let was = layout_at(old, place);
        let is = layout_at(new, place);
        let change = change_of(alloc, &table, changes, was, is)?;
        structs.push(change)?;
    }
    Ok(VersionChanges { structs })
}

/// The layout at a place of a table, if there is one.
fn layout_at(layouts: &[Option<Layout>], place: usize) -> Option<&Layout>
    ensures { option_copied result ≡ option_flatten (slice_get layouts.now place) }
{
    match layouts.get(place) {
        Some(Some(layout)) => Some(layout),
        _ => None,
    }
}

/// What changes the objects of a struct, by its layouts in both texts. They stay where the newer text doesn't have the struct, and have
/// zeros where it alone has it.
fn change_of(
    alloc: Global,
    table: &Scopes<usize>,
    changes: &[Change],
    old: Option<&Layout>,
    new: Option<&Layout>,
) -> Result<Option<WordChange>, AllocError>
    requires { table.now ≡ key_table (keys OfStruct changes.now) }
    ensures { (p q : List BareDef) (tag : Bytes) → IsLayoutOf p tag (option_copied old.entry) → IsLayoutOf q tag (option_copied new.entry)
        → map name_of changes.now ≡ changing p q → All (IsChange p q) changes.now → IfOk result (IsWordChange p q tag) }
{
    match new {
        None => Ok(None),
        Some(_) => match old {
            None => Ok(Some(WordChange::Zero)),
            Some(old) => converted(alloc, table, changes, old),
        },
    }
}

/// What changes the objects of a struct that both texts have. They stay where it has no change.
fn converted(
    alloc: Global,
    table: &Scopes<usize>,
    changes: &[Change],
    old: &Layout,
) -> Result<Option<WordChange>, AllocError>
    requires { table.now ≡ key_table (keys OfStruct changes.now) }
    ensures { (p q : List BareDef) (tag : Bytes) → IsLayout p tag old.now → IsStruct (definition q (struct_name tag))
        → map name_of changes.now ≡ changing p q → All (IsChange p q) changes.now → IfOk result (IsWordChange p q tag) }
{
    let name = old.tag.as_str();
    match transform(table, changes, name) {
        Some(transform) => {
            let conversion = conversion(alloc, old, transform)?;
            Ok(Some(WordChange::Given(conversion)))
        }
        None => Ok(None),
    }
}

/// The conversion of objects that have a layout before.
fn conversion(alloc: Global, old: &Layout, transform: &Transform) -> Result<Conversion, AllocError>
    ensures kinds { IfOk result (λ c. c.kinds.items ≡ old.now.kinds.items) }
    ensures transform { IfOk result (λ c. AreCopies transform.now c.transform) }
{
    let kinds = Vec::from_slice(alloc, old.kinds.as_slice())?;
    let transform = copied(alloc, transform)?;
    Ok(Conversion { kinds, transform })
}
