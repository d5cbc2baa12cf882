//! The table of names.
ghost use Rattle.std.specs.Prelude.{◌≡◌, ◌≤◌, length, map, string_bytes, IfOk};
ghost use Rattle.name_sets.specs.Limit.{most_names};
ghost use Rattle.name_sets.specs.NameLists.{name_set};
ghost use Rattle.c_tree.specs.Bare.{bare_def};
ghost use Rattle.c_semantics.specs.Texts.{names};
ghost use Rattle.effects_report.specs.Tables.{Ascend, IsOrdered};

use c_tree::Def;
use name_sets::{Names, NamesFault};
use sorted_names::names_in_order;
use std::alloc::{AllocError, Global};

/// The names that some definitions define, in the order of their bytes. A table has room for them.
pub(crate) fn names_of(alloc: Global, definitions: &[Def]) -> Result<Names, AllocError>
    requires { length (name_set (names (map bare_def definitions.now))) ≤ most_names }
    ensures ordered { IfOk result (λ table. IsOrdered table) }
    ensures all { IfOk result (λ table. table ≡ name_set (names (map bare_def definitions.now))) }
{
    let texts = names_in_order(alloc, definitions)?;
    let names = table_of(alloc, texts.as_slice())?;
    let _many = names.len();
    Ok(names)
}

/// The table of some texts, in their order.
fn table_of(alloc: Global, texts: &[String]) -> Result<Names, AllocError>
    requires ascend { Ascend (map string_bytes texts.now) }
    requires few { length texts.now ≤ most_names }
    ensures { IfOk result (λ names. names ≡ map string_bytes texts.now) }
{
    let mut names = Names::new(alloc);
    for text in texts {
        match names.add(text.as_str()) {
            Ok(_) => {}
            Err(NamesFault::Memory) => return Err(AllocError),
            Err(NamesFault::Full) => unreachable!(),
        }
    }
    Ok(names)
}
