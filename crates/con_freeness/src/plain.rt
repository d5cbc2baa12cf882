//! The least common name of two sets, found one id at a time.
ghost use Rattle.std.specs.Prelude.{ℕ, ◌<◌, length};
ghost use Rattle.std.specs.Option.{ForSome};
ghost use Rattle.name_sets.specs.IdSet.{IsCommon};
ghost use Rattle.name_sets.specs.Least.{TellsLeast};
ghost use Rattle.name_sets.specs.Search.{IsLesser};

use name_sets::{NameId, NameSet, Names};

/// The one of two names whose text comes first, where the older may not be there.
fn lesser(names: &Names, old: Option<NameId>, id: NameId) -> NameId
    requires old { ForSome old (λ o. o < length names.now) }
    requires id { id < length names.now }
    ensures { IsLesser names.now old id result }
{
    match old {
        Some(old) if !names.before(id, old) => old,
        _ => id,
    }
}

/// `NameSet::least_common`, one id at a time.
pub(crate) fn least_common(set: &NameSet, other: &NameSet, names: &Names) -> Option<NameId>
    requires { (id : ℕ) → IsCommon set.now other.now id → id < length names.now }
    ensures { TellsLeast names.now (IsCommon set.now other.now) result }
{
    if !set.meets_plain(other) {
        return None;
    }
    let mut least = None;
    for index in 0..names.len() {
        if let Some(id) = NameId::new(index) {
            if set.holds(id) && other.holds(id) {
                least = Some(lesser(names, least, id));
            }
        }
    }
    least
}
