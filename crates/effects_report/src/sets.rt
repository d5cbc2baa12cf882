//! The sets of effects by place.
ghost use Rattle.std.specs.Prelude.{◌≡◌, slice_index};

use contextual_effects::Effects;
use name_sets::{NameId, NameSet};

/// The set at a place; there is none past the end, and it counts as empty.
fn set_at(sets: &[NameSet], at: usize) -> NameSet
    ensures { result ≡ slice_index sets.now at }
{
    match sets.get(at) {
        Some(set) => *set,
        None => NameSet::empty(),
    }
}

/// The prior effect of the point at a place of the flow.
pub(crate) fn prior_at(effects: &Effects, at: usize) -> NameSet
    ensures { result ≡ slice_index effects.now.prior at }
{
    set_at(effects.prior(), at)
}

/// Its future effect.
pub(crate) fn future_at(effects: &Effects, at: usize) -> NameSet
    ensures { result ≡ slice_index effects.now.future at }
{
    set_at(effects.future(), at)
}

/// Its concrete effect.
pub(crate) fn concrete_at(effects: &Effects, at: usize) -> NameSet
    ensures { result ≡ slice_index effects.now.concrete at }
{
    set_at(effects.concrete(), at)
}

/// The standard effect of a function.
pub(crate) fn standard_at(effects: &Effects, function: NameId) -> NameSet
    ensures { result ≡ slice_index effects.now.standard function }
{
    set_at(effects.standard(), function.index())
}
