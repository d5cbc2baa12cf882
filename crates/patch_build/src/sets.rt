//! Names as sets of ids.
ghost use Rattle.std.specs.Prelude.{All, Contains};
ghost use Rattle.name_sets.specs.Texts.{IsTable};
ghost use Rattle.brought_bodies.specs.Sets.{IsSetOf};
ghost use Rattle.patch_build.specs.Sets.{AddsName};

use dsu_io::Text;
use name_sets::{NameSet, Names};

/// The ids of some names of the table.
pub(crate) fn ids_of(names: &Names, list: &[Text]) -> NameSet
    ensures { IsTable names.now → All (Contains names.now) list.now → IsSetOf names.now result list.now }
{
    let mut ids = NameSet::empty();
    for name in list {
        add_name(&mut ids, names, name.as_str());
    }
    ids
}

/// Adds the id of a name of the table.
fn add_name(ids: &mut NameSet, names: &Names, name: &str)
    ensures { IsTable names.now → Contains names.now name.now → AddsName names.now ids.old name.now ids.new }
{
    let Some(id) = names.find(name) else {
        return;
    };
    ids.add(id);
}
