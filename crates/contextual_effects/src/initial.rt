//! The names that nodes have by themselves.
ghost use Rattle.std.specs.Prelude.{◌<◌, ◌≤◌, IfOk};
ghost use Rattle.name_sets.specs.Limit.{most_names};
ghost use Rattle.contextual_effects.specs.Steps.{IsSingle, AreSingles, AreSeeds, AreTokens, AreNone};

use crate::nodes::Nodes;
use name_sets::{NameId, NameSet};
use std::alloc::{AllocError, Global};

/// The set of one id.
fn single(id: usize) -> NameSet
    requires { id < most_names }
    ensures { IsSingle result id }
{
    let mut set = NameSet::empty();
    if let Some(id) = NameId::new(id) {
        set.add(id);
    }
    set
}

/// For each id below a number the set that has it alone.
fn singles(alloc: Global, ids: usize) -> Result<Vec<NameSet>, AllocError>
    requires { ids ≤ most_names }
    ensures { IfOk result (λ sets. AreSingles ids sets.items) }
{
    let mut sets = Vec::with_capacity(alloc, ids)?;
    for id in 0..ids {
        sets.push(single(id))?;
    }
    Ok(sets)
}

/// Empty sets.
pub(crate) fn no_sets(alloc: Global, count: usize) -> Result<Vec<NameSet>, AllocError>
    ensures { IfOk result (λ sets. AreNone count sets.items) }
{
    vec![in alloc; NameSet::empty(); count]
}

/// The seeds where functions begin with given sets, names with themselves, and all else with nothing.
pub(crate) fn seeds(
    alloc: Global,
    nodes: &Nodes,
    whole: &[NameSet],
) -> Result<Vec<NameSet>, AllocError>
    ensures { IfOk result (λ seeds. AreSeeds nodes.now.points nodes.now.names whole.now seeds.items) }
{
    let mut seeds = no_sets(alloc, nodes.points + nodes.names)?;
    let names = singles(alloc, nodes.names)?;
    seeds.extend_from_slice(whole)?;
    seeds.extend_from_slice(&names)?;
    Ok(seeds)
}

/// The seeds of the system for nested functions: the transactions have the token 0.
pub(crate) fn tokens(alloc: Global, names: usize) -> Result<Vec<NameSet>, AllocError>
    ensures { IfOk result (λ seeds. AreTokens names seeds.items) }
{
    let mut seeds = no_sets(alloc, names)?;
    seeds.push(single(0))?;
    Ok(seeds)
}
