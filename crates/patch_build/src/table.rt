//! The table of names.
ghost use Rattle.std.specs.Prelude.{◌≡◌, ◌<◌, map, length, string_bytes, slice_get, Some, IfOk, IfErr, IsErrOf, OnOk};
ghost use Rattle.c_tree.specs.Bare.{bare_def};
ghost use Rattle.c_semantics.specs.Texts.{names};
ghost use Rattle.name_sets.specs.Limit.{most_names};
ghost use Rattle.name_sets.specs.NameLists.{name_set};
ghost use Rattle.name_sets.specs.Texts.{IsTable};
ghost use Rattle.patch_build.specs.Tables.{with_texts, IsNamesFault};

use crate::fault::PatchFault;
use c_types::Typed;
use name_sets::{NameId, Names, NamesFault};
use sorted_names::names_in_order;
use std::alloc::Global;

/// A table with the names of a text added, in the order of bytes, after those that are there.
pub(crate) fn with_names_of(alloc: Global, table: &Names, text: &Typed) -> Result<Names, PatchFault>
    ensures names { IfOk result (λ all. all ≡ with_texts table.now (name_set (names (map bare_def text.now.definitions)))) }
    ensures table { IfOk result (λ all. IsTable all) }
    ensures fault { IfErr result (IsNamesFault (with_texts table.now (name_set (names (map bare_def text.now.definitions))))) }
{
    let texts = names_in_order(alloc, text.program().definitions.as_slice())?;
    let mut all = copied(alloc, table)?;
    add_all(&mut all, texts.as_slice())?;
    Ok(all)
}

/// A copy of a table. It has room for all its texts, so only memory can be wanting.
fn copied(alloc: Global, table: &Names) -> Result<Names, NamesFault>
    ensures copy { IfOk result (λ copy. copy ≡ table.now) }
    ensures memory { IfErr result (λ fault. fault ≡ NamesFault.Memory) }
{
    let mut copy = Names::new(alloc);
    for index in 0..table.len() {
        match copy.add(text_at(table, index)) {
            Ok(_) => {}
            Err(NamesFault::Memory) => return Err(NamesFault::Memory),
            Err(NamesFault::Full) => unreachable!(),
        }
    }
    Ok(copy)
}

/// The text with a number.
fn text_at(table: &Names, index: usize) -> &str
    requires { index < length table.now }
    ensures { slice_get table.now index ≡ Some result.now }
{
    let _many = table.len();
    table.text(NameId::new(index).unwrap())
}

/// Adds texts in their order. `Full` comes where there would be more than 2,048.
fn add_all(table: &mut Names, texts: &[String]) -> Result<(), NamesFault>
    ensures added { OnOk result (table.new ≡ with_texts table.old (map string_bytes texts.now)) }
    ensures full { IsErrOf result NamesFault.Full
        → most_names < length (with_texts table.old (map string_bytes texts.now)) }
{
    for text in texts {
        table.add(text.as_str())?;
    }
    Ok(())
}
